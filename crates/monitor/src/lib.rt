// The monitor: one state of fixed size, a start and a step.
#![tactic(auto)]

mod kept;
mod walk;

ghost use Rattle.std.specs.Prelude.{◌≡◌};
ghost use Rattle.monitor.specs.Keeping.{fresh, start_on};
ghost use Rattle.monitor.specs.Stepping.{stepped_from, step_of};

use crate::walk::advance;
pub use kept::unsound;
use refusals::Refusal;
use table::Table;
use values::{Number, Outcome, Slot, Truth};

// A kept time is one more than the time, and 0 where there is none.
#[derive(Clone, Copy, Debug, PartialEq, Eq)]
pub struct Monitor {
    pub table: Table,
    // the kept time of the last accepted step
    pub last: u64,
    // the last reported value of each condition import
    pub reported: [Truth; Table::IMPORTS],
    // the number that each variable holds
    pub held: [Number; Table::VARIABLES],
    // what each entry remembers: above 0 for a pair that is open, a start whose condition was true and an end whose
    // condition was false; a kept time for a time of an event
    pub cells: [u64; Table::ENTRIES],
}

// A start: a monitor, or 29 and the monitor of the empty table. No Result, for reason (a): "a start on a table at fault gives 29 and the monitor
// of the empty table" (document 01).
#[derive(Clone, Copy)]
pub struct Started {
    pub answer: Result<(), Refusal>,
    pub monitor: Monitor,
}

// A step: the new monitor and its results, or the refusal, the monitor as it came and 128 times "no result". No Result, for reason (a): "a refused
// step returns the monitor unchanged and 128 times 'no result'" (document 01).
#[derive(Clone, Copy)]
pub struct Stepped {
    pub answer: Result<(), Refusal>,
    pub monitor: Monitor,
    pub results: [Slot; Table::ENTRIES],
}

// "a monitor that holds that table and no accepted step yet"
fn fresh(t: Table) -> Monitor
    ensures { result ≡ fresh t }
{
    // a local, for reason (c): a field that is an array, put into a literal straight, has no generated proof
    let held = t.variables;
    Monitor {
        table: t,
        last: 0,
        reported: [Truth::Undefined; Table::IMPORTS],
        held,
        cells: [0; Table::ENTRIES],
    }
}

// A start on a table: a fresh monitor, or 29 and the monitor of the empty table.
pub fn start(t: Table) -> Started
    ensures { result ≡ start_on t }
{
    match sound::fault(t) {
        Ok(()) => Started {
            answer: Ok(()),
            monitor: fresh(t),
        },
        Err(_) => Started {
            answer: Err(Refusal::Unsound),
            monitor: fresh(Table::empty()),
        },
    }
}

// A step that is taken: 29 before all else, then what the bytes say, then the entries in order.
fn accepted(m: Monitor, s: &[u8]) -> Result<Stepped, Refusal>
    ensures { stepped_from m result ≡ step_of m s.now }
{
    unsound(m)?;
    let taken = step::read(m.table, m.last, m.reported, s);
    taken.answer?;
    Ok(advance(m, taken))
}

// A step: "a refused step returns the monitor unchanged and 128 times 'no result'".
pub fn step(m: Monitor, s: &[u8]) -> Stepped
    ensures { result ≡ step_of m s.now }
{
    match accepted(m, s) {
        Ok(stepped) => stepped,
        Err(refusal) => Stepped {
            answer: Err(refusal),
            monitor: m,
            results: [Slot {
                outcome: Outcome::Nothing,
            }; Table::ENTRIES],
        },
    }
}
