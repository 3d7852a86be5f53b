// Numbers in bytes, the most significant byte first. A byte past the end is 0.
ghost use Rattle.std.specs.Prelude.{◌≡◌, drop, get_or, min};
ghost use Rattle.casebook.specs.Cases.{number_of};

// One byte.
pub fn byte(s: &[u8], at: usize) -> u8
    ensures { result ≡ get_or s.now at 0 }
{
    s.get(at).copied().unwrap_or(0)
}

// Two bytes.
#[tactic(auto, unfolding(crate::specs::Cases::number_of))]
pub fn word(s: &[u8], at: usize) -> u16
    ensures { result ≡ number_of 2 (drop at s.now) }
{
    let rest = s.get(at..).unwrap_or(&[]);
    byte(rest, 0) as u16 * 256 + byte(rest, 1) as u16
}

// As many bytes as are asked for, and no more than eight.
pub fn number(s: &[u8], at: usize, count: usize) -> u64
    ensures { result ≡ number_of (min count 8) (drop at s.now) }
{
    let rest = s.get(at..).unwrap_or(&[]);
    let bytes = count.min(8);
    let mut number = 0;
    for i in 0..bytes {
        number = number * 256 + byte(rest, i) as u64;
    }
    number
}
