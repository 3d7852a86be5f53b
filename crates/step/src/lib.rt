// A step read from its bytes. Its meaning, bit by bit, stands in specs/.
#![tactic(auto)]

mod closing;
mod reading;
mod report;
mod telling;

pub use closing::close;
pub use reading::read;
use refusals::Refusal;
pub use report::{import, report_for};
use table::Table;
pub use telling::Telling;
use values::{Number, Truth};

// What a step tells of an import: nothing, a condition's value, or that an event occurs, with its value.
#[derive(Clone, Copy, Debug, PartialEq, Eq)]
pub enum Told {
    Nothing,
    Condition(Truth),
    Event(Number),
}

// A step that was read: its time, what it tells of each import, and the last reported values after it; or the refusal.
// No Result, for reason (a): of a refusal too the contract of `read` says that nothing is told and the reported values are as they came.
#[derive(Clone, Copy)]
pub struct Taken {
    pub answer: Result<(), Refusal>,
    pub time: u64,
    pub told: [Told; Table::IMPORTS],
    pub reported: [Truth; Table::IMPORTS],
}

// A report that was heard: its import, what it tells of it, and the bit after it.
#[derive(Clone, Copy)]
pub struct Heard<T> {
    pub imported: usize,
    pub told: T,
    pub next: usize,
}
