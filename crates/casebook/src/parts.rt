// Parts of bytes. A part has its length, two bytes, before it.
ghost use Rattle.std.specs.Prelude.{◌≡◌, [], length, MatchOption};
ghost use Rattle.std.specs.Iterator.{at_most};
ghost use Rattle.casebook.specs.Cases.{part_of, rest_of};

use crate::numbers::word;

// The first part, none where it is not all there, and what follows it.
pub fn split_part(s: &[u8]) -> (&[u8], &[u8])
    ensures part { result.0.now ≡ part_of s.now }
    ensures rest { result.1.now ≡ rest_of s.now }
{
    let end = 2 + word(s, 0) as usize;
    (s.get(2..end).unwrap_or(&[]), s.get(end..).unwrap_or(&[]))
}

// Parts one after another, to the end of the bytes.
#[derive(Clone, Copy)]
pub struct Parts<'a>(pub &'a [u8]);

impl<'a> Iterator for Parts<'a> {
    type Item = &'a [u8];

    ghost remaining = { λ left. at_most (length left.0.now) };

    ghost next_gives = { λ left part after. MatchOption part (left.0.now ≡ [])
        (λ p. (p.now ≡ part_of left.0.now) × (after.0.now ≡ rest_of left.0.now)) };

    fn next(&mut self) -> Option<&'a [u8]> {
        if self.0.is_empty() {
            return None;
        }
        let (part, rest) = split_part(self.0);
        self.0 = rest;
        Some(part)
    }
}
