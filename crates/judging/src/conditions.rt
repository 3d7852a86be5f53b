// The kinds that are conditions: true is the word 3, false 2, undefined 1.
ghost use Rattle.std.specs.Prelude.{◌≡◌};
ghost use Rattle.judging.specs.Leaves.{defined_word, pair_word, pair_cell, not_word, or_word, and_word, implies_word, less_word, equal_word, property_of};

use crate::Judged;
use crate::picking::{pick, truth, wholes};

// "defined": true unless the condition is undefined.
pub(crate) fn defined(x: u64) -> u64
    ensures { result ≡ defined_word x }
{
    pick((x == 2) | (x == 3), 3, 2)
}

// A pair that was left open, or is opened now, and is not closed now, is true, and remembers that it is open.
pub(crate) fn pair(x: u64, y: u64, cell: u64) -> Judged
    ensures { (result.outcome ≡ pair_word x y cell) × (result.cell ≡ pair_cell x y cell) }
{
    let opened = ((0 < cell) | (x == 6)) & !(y == 6);
    Judged {
        outcome: pick(opened, 3, 2),
        cell: u64::from(opened),
    }
}

// "Not": true if the condition is false, false if it is true.
pub(crate) fn not(x: u64) -> u64
    ensures { result ≡ not_word x }
{
    truth(x == 2, x == 3)
}

// "or": true if one is true, false if both are false.
pub(crate) fn or(x: u64, y: u64) -> u64
    ensures { result ≡ or_word x y }
{
    truth((x == 3) | (y == 3), (x == 2) & (y == 2))
}

// "a and b": true if both are true, false if one is false.
pub(crate) fn and(x: u64, y: u64) -> u64
    ensures { result ≡ and_word x y }
{
    truth((x == 3) & (y == 3), (x == 2) | (y == 2))
}

// "a implies b": true if a is false or b is true, false if a is true and b is false.
pub(crate) fn implies(x: u64, y: u64) -> u64
    ensures { result ≡ implies_word x y }
{
    truth((x == 2) | (y == 3), (x == 3) & (y == 2))
}

// "less ... undefined where an operand is": of two whole numbers' words the lower is the lesser number's.
pub(crate) fn less(x: u64, y: u64) -> u64
    ensures { result ≡ less_word x y }
{
    let known = wholes(x, y);
    truth(known & (x < y), known & !(x < y))
}

// "equal ... undefined where an operand is."
pub(crate) fn equal(x: u64, y: u64) -> u64
    ensures { result ≡ equal_word x y }
{
    let known = wholes(x, y);
    truth(known & (x == y), known & !(x == y))
}

// "A property is violated where its condition is false; undefined is reported as not known."
pub(crate) fn property(x: u64) -> u64
    ensures { result ≡ property_of x }
{
    pick(x == 3, 13, pick(x == 2, 12, 11))
}
