// One entry of a script read: its kind, then its operands, each judged before the next is taken.
// Fields are taken apart by let .. else, for reason (a): document 01 names the form.
#![tactic(auto)]

ghost use Rattle.std.specs.Prelude.{◌≡◌, ◌*◌, ◌≤◌, length};
ghost use Rattle.kinds.specs.Apart.{wide_of};
ghost use Rattle.entries.specs.Entering.{operand_by, entered};
ghost use Rattle.entries.specs.Takings.{got_of};

use kinds::Operand;
use refusals::Refusal;
use sound::Known;
use table::Entry;

// The number of an operand that was accepted, and the bit after it.
#[derive(Clone, Copy)]
struct Taking {
    number: u64,
    next: usize,
}

// The operand at a bit, judged; where there is no operand nothing is read.
#[tactic(auto, unfolding(crate::specs::Entering::operand_by))]
fn operand(s: &[u8], at: usize, o: Operand, known: Known) -> Result<Taking, Refusal>
    requires { length s.now ≤ 4096 }
    ensures { got_of result ≡ operand_by known.entry.sorts.now known.entry.events.now known.entry.q known.entry.v known.entry.k o s.now at }
{
    let w = o.width();
    if w == 0 {
        return Ok(Taking {
            number: 0,
            next: at,
        });
    }
    let Some(number) = bits::field_at(s, at, w) else {
        return Err(Refusal::Cut);
    };
    known.judge(o.holding(number))?;
    Ok(Taking {
        number,
        next: at + w,
    })
}

// The entry at a bit, read by what is known of the table so far.
#[tactic(auto, unfolding(crate::specs::Entering::operands_by, crate::specs::Entering::entry_by, crate::specs::Entering::entered))]
pub fn read(s: &[u8], at: usize, known: Known) -> Result<(Entry, usize), Refusal>
    ensures { result ≡ entered known.entry.sorts.now known.entry.events.now known.entry.q known.entry.v known.entry.k s.now at }
{
    let too_long = 4096 < s.len();
    if too_long {
        return Err(Refusal::TooLong);
    }
    let Some(kind) = bits::field_at(s, at, 5) else {
        return Err(Refusal::Cut);
    };
    let unknown = 25 <= kind;
    if unknown {
        return Err(Refusal::Kind);
    }
    let places = kinds::apart_of(kinds::made(kind as usize, 0, 0, 0, 0));
    let start = at + 5;
    let a = operand(s, start, places.first, known)?;
    let b = operand(s, a.next, places.second, known)?;
    let c = operand(s, b.next, places.third, known)?;
    let entry = kinds::made(
        kind as usize,
        (a.number % 65536) as u16,
        (b.number % 65536) as u16,
        (c.number % 65536) as u16,
        bits::signed(a.number),
    );
    Ok((entry, c.next))
}
