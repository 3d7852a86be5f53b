// The end of a step.
// Fields are taken apart by let .. else, for reason (a): document 01 names the form.
ghost use Rattle.std.specs.Prelude.{◌≡◌, ◌≤◌};
ghost use Rattle.bits.specs.Bits.{field_at, padding_at};
ghost use Rattle.step.specs.Stages.{closed};

use refusals::Refusal;

// The bits from `at` on up to the end of its byte, or none where they are not there.
fn rest_of_byte(s: &[u8], at: usize, w: usize) -> Option<u64>
    requires { w ≡ padding_at at }
    ensures { result ≡ field_at s.now at w }
{
    if w == 0 {
        return bits::field_at(s, at, w);
    }
    let byte = bits::byte_at(s, at / 8)?;
    Some(byte % (1u64 << w))
}

// "Zero bits up to a whole byte end it."
pub fn close(s: &[u8], at: usize) -> Result<(), Refusal>
    requires { at ≤ 4096 }
    ensures { result ≡ closed s.now at }
{
    let w = (8 - at % 8) % 8;
    let Some(zeros) = rest_of_byte(s, at, w) else {
        return Err(Refusal::StepCut);
    };
    let padded = zeros != 0;
    if padded {
        return Err(Refusal::StepPadding);
    }
    if (at + w) / 8 != s.len() {
        return Err(Refusal::StepLeftOver);
    }
    Ok(())
}
