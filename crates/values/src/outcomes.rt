// What an operand takes from a result.
ghost use Rattle.std.specs.Prelude.{◌≡◌};
ghost use Rattle.values.specs.Outcomes.{condition_in, event_in, number_in, is_done};

use crate::{Number, Outcome, Truth};

// Four of one shape, for reason (d): what each takes and what stands in for it is the whole of it.
impl Outcome {
    // a result of the sort C
    pub fn condition(self) -> Truth
        ensures { result ≡ condition_in self }
    {
        match self {
            Outcome::Condition(c) => c,
            _ => Truth::Undefined,
        }
    }

    // a result of the sort E
    pub fn event(self) -> bool
        ensures { result ≡ event_in self }
    {
        match self {
            Outcome::Event(b) => b,
            _ => false,
        }
    }

    // a result of the sort N
    pub fn number(self) -> Number
        ensures { result ≡ number_in self }
    {
        match self {
            Outcome::Numeric(x) => x,
            _ => Number::Undefined,
        }
    }

    // whether an update was done
    pub fn done(self) -> bool
        ensures { result ≡ is_done self }
    {
        match self {
            Outcome::Done(b) => b,
            _ => false,
        }
    }
}
