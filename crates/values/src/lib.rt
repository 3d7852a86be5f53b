// The values of document 01: conditions, numbers and results.
#![tactic(auto)]

mod numbers;
mod outcomes;
mod texts;
mod truths;

// "A condition is true, false or undefined."
#[derive(Clone, Copy, Debug, PartialEq, Eq)]
pub enum Truth {
    Undefined,
    False,
    True,
}

// "A number is undefined or a whole number from -2^47 to 2^47-1." An enum of its own, for reason (d): an Option<i64> could have no methods `sum`,
// `difference`, `less` and `equal`, and its None would not say that a number is undefined.
#[derive(Clone, Copy, Debug, PartialEq, Eq)]
pub enum Number {
    Undefined,
    Whole(i64),
}

// The result of one entry at one step; specs/Outcomes.antt has the document's word for each.
#[derive(Clone, Copy, Debug, PartialEq, Eq)]
pub enum Outcome {
    Nothing,
    Condition(Truth),
    Event(bool),
    Numeric(Number),
    Done(bool),
    Raised(bool),
    Property(Truth),
}

// "A step's result holds one result per entry slot": a struct around the result, for reason (a): a form that document 01 names.
#[derive(Clone, Copy, Debug, PartialEq, Eq)]
pub struct Slot {
    pub outcome: Outcome,
}
