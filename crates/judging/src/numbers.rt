// The kinds that are numbers: a whole number is as far from the word of 0 as it is from 0, and undefined is the word 4.
ghost use Rattle.std.specs.Prelude.{◌≡◌};
ghost use Rattle.judging.specs.Leaves.{sum_word, difference_word, value_word, kept_word, time_word, time_cell};

use crate::Judged;
use crate::picking::{pick, wholes};

// The word of the number 0.
const ZERO: u64 = 422212465065984;

// "Sum ... undefined where an operand is." "A sum or difference outside the number range is undefined."
pub(crate) fn sum(x: u64, y: u64) -> u64
    ensures { result ≡ sum_word x y }
{
    if wholes(x, y) {
        let s = x + y - ZERO;
        pick(s >> 48 == 1, s, 4)
    } else {
        4
    }
}

// "difference N N (first less second)", "undefined where an operand is"
pub(crate) fn difference(x: u64, y: u64) -> u64
    ensures { result ≡ difference_word x y }
{
    if wholes(x, y) {
        let d = x + ZERO - y;
        pick(d >> 48 == 1, d, 4)
    } else {
        4
    }
}

// "Value is the value reported in this step, else undefined."
pub(crate) fn value(told: u64) -> u64
    ensures { result ≡ value_word told }
{
    pick(4 <= told, told, 4)
}

// The time that is kept: one less than what the cell holds; what is out of range is no time.
fn kept(c: u64) -> u64
    ensures { result ≡ kept_word c }
{
    if (c == 0) | (140737488355328 < c) {
        4
    } else {
        c - 1 + ZERO
    }
}

// "Time of E is the time of its latest occurrence, this step included": it is what is remembered.
pub(crate) fn time(x: u64, now: u64, cell: u64) -> Judged
    ensures { (result.outcome ≡ time_word x now cell) × (result.cell ≡ time_cell x now cell) }
{
    let latest = pick(x == 6, now, cell);
    Judged {
        outcome: kept(latest),
        cell: latest,
    }
}
