// The operators on conditions.
ghost use Rattle.std.specs.Prelude.{◌≡◌};
ghost use Rattle.values.specs.Truths.{not_t, or_t, and_t, implies_t, defined_t, truth_of, is_true, is_false};

use crate::Truth;

impl Truth {
    // "Not, or and defined are those of table 4.2 in source document 000"
    pub fn not(self) -> Truth
        ensures { result ≡ not_t self }
    {
        match self {
            Truth::Undefined => Truth::Undefined,
            Truth::False => Truth::True,
            Truth::True => Truth::False,
        }
    }

    pub fn or(self, other: Truth) -> Truth
        ensures { result ≡ or_t self other }
    {
        match (self, other) {
            (Truth::True, _) | (_, Truth::True) => Truth::True,
            (Truth::False, other) => other,
            (Truth::Undefined, _) => Truth::Undefined,
        }
    }

    pub fn defined(self) -> Truth
        ensures { result ≡ defined_t self }
    {
        Truth::from(self != Truth::Undefined)
    }

    // "a and b" is not (not a or not b)
    pub fn and(self, other: Truth) -> Truth
        ensures { result ≡ and_t self other }
    {
        self.not().or(other.not()).not()
    }

    // "a implies b" is (not a) or b
    pub fn implies(self, other: Truth) -> Truth
        ensures { result ≡ implies_t self other }
    {
        self.not().or(other)
    }

    // "where the condition is true"
    pub fn is_true(self) -> bool
        ensures { result ≡ is_true self }
    {
        self == Truth::True
    }

    // "where it is false": undefined is not false
    pub fn is_false(self) -> bool
        ensures { result ≡ is_false self }
    {
        self == Truth::False
    }
}

// What is known to hold or known not to: never undefined.
impl From<bool> for Truth {
    ghost from_gives = { λ b t. t ≡ truth_of b };

    fn from(b: bool) -> Truth {
        if b { Truth::True } else { Truth::False }
    }
}
