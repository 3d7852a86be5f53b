// Conditions and numbers as text.
ghost use Rattle.std.specs.Prelude.{Some};
ghost use Rattle.values.specs.Texts.{truth_text, number_text};

use crate::{Number, Truth};
use std::fmt;

// "A condition is true, false or undefined."
impl fmt::Display for Truth {
    ghost output = { λ t. Some (truth_text t) };

    fn fmt<W: fmt::Write>(&self, f: &mut fmt::Formatter<W>) -> fmt::Result {
        f.write_str(match self {
            Truth::Undefined => "undefined",
            Truth::False => "false",
            Truth::True => "true",
        })
    }
}

// "A number is undefined or a whole number"
impl fmt::Display for Number {
    ghost output = { λ n. Some (number_text n) };

    fn fmt<W: fmt::Write>(&self, f: &mut fmt::Formatter<W>) -> fmt::Result {
        match self {
            Number::Undefined => f.write_str("undefined"),
            Number::Whole(z) => write!(f, "{z}"),
        }
    }
}
