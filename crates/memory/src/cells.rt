// What goes into a cell at the end of a step.
ghost use Rattle.std.specs.Prelude.{◌≡◌};
ghost use Rattle.memory.specs.Memory.{mark, open_now, latest_now, remember};

use crate::Memory;
use values::Outcome;

// A pair that was left open, or is opened now, and is not closed now.
pub(crate) fn open_now(was_open: bool, first: bool, second: bool) -> bool
    ensures { result ≡ open_now was_open first second }
{
    (was_open | first) & !second
}

// A mark in a cell.
fn mark(b: bool) -> u64
    ensures { result ≡ mark b }
{
    u64::from(b)
}

// A kept time: now, or as it was kept.
pub(crate) fn latest_now(occurs: bool, now: u64, kept: u64) -> u64
    ensures { result ≡ latest_now occurs now kept }
{
    if occurs { now } else { kept }
}

// What is remembered for the next step; `now` is the kept form of this step's time.
pub fn remember(kept: Memory, x: Outcome, y: Outcome, now: u64, cell: u64) -> u64
    ensures { result ≡ remember kept x y now cell }
{
    match kept {
        Memory::Nothing => cell,
        Memory::Open => mark(open_now(0 < cell, x.event(), y.event())),
        Memory::Stood => mark(x.condition().is_true()),
        Memory::Failed => mark(x.condition().is_false()),
        Memory::Latest => latest_now(x.event(), now, cell),
    }
}
