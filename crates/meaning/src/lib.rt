// What each of the twenty-five kinds means at one step: where an entry looks, and what it says.
#![tactic(auto)]

mod looking;
mod results;

pub use looking::places_of;
pub use results::result;
use step::Told;
use values::{Number, Truth};

// Where an entry looks: its first and second operand entry, its import and its variable; 0 where it has none.
#[derive(Clone, Copy)]
pub struct Places {
    pub first: usize,
    pub second: usize,
    pub imported: usize,
    pub variable: usize,
}

// What an entry looks at besides the results of its operands: this step, and what has been.
#[derive(Clone, Copy)]
pub struct Givens {
    // what this step tells of its import
    pub told: Told,
    // the time of this step
    pub clock: i64,
    // the last reported value of its import
    pub reported: Truth,
    // the number that a read of its variable sees here
    pub held: Number,
    // whether its first event occurred at some step and its second at none from then on
    pub paired: bool,
    // whether its condition stood (was true) one step before
    pub stood: bool,
    // whether its condition failed (was false) one step before
    pub failed: bool,
    // the time of its event's latest occurrence, this step included
    pub latest: Number,
}
