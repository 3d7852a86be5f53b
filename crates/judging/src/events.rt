// The kinds that are events: an event that occurs is the word 6, one that does not is 5.
ghost use Rattle.std.specs.Prelude.{◌≡◌};
ghost use Rattle.judging.specs.Leaves.{occurs_word, start_word, start_cell, end_word, end_cell, both_word, either_of, when_word};

use crate::Judged;
use crate::picking::pick;

// "An imported event occurs in the steps that report it."
pub(crate) fn occurs(told: u64) -> u64
    ensures { result ≡ occurs_word told }
{
    pick(4 <= told, 6, 5)
}

// "Start occurs where the condition is true and was not true one step before." It remembers that it stood.
pub(crate) fn start(x: u64, cell: u64) -> Judged
    ensures { (result.outcome ≡ start_word x cell) × (result.cell ≡ start_cell x) }
{
    Judged {
        outcome: pick((x == 3) & !(0 < cell), 6, 5),
        cell: u64::from(x == 3),
    }
}

// "End occurs where it is false and was not false one step before." It remembers that it failed. Of the shape of `start`, for reason (d): each
// is a sentence of document 01.
pub(crate) fn end(x: u64, cell: u64) -> Judged
    ensures { (result.outcome ≡ end_word x cell) × (result.cell ≡ end_cell x) }
{
    Judged {
        outcome: pick((x == 2) & !(0 < cell), 6, 5),
        cell: u64::from(x == 2),
    }
}

// "Both, either and when are plain"
pub(crate) fn both(x: u64, y: u64) -> u64
    ensures { result ≡ both_word x y }
{
    pick((x == 6) & (y == 6), 6, 5)
}

// One of two events.
pub(crate) fn either(x: u64, y: u64) -> u64
    ensures { result ≡ either_of x y }
{
    pick((x == 6) | (y == 6), 6, 5)
}

// "when needs its condition to be true"
pub(crate) fn when(x: u64, y: u64) -> u64
    ensures { result ≡ when_word x y }
{
    pick((x == 6) & (y == 3), 6, 5)
}
