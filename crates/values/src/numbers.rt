// The operators on numbers. A held number may be any i64; every sum is taken where it cannot overflow.
ghost use Rattle.std.specs.Prelude.{◌≡◌, ◌+ℤ◌, ◌-ℤ◌};
ghost use Rattle.values.specs.Numbers.{in_range, fits_n, ranged, sum_n, difference_n, less_n, equal_n};
ghost use Rattle.values.specs.Adding.{negative, addable};

use crate::{Number, Truth};

// "from -2^47 to 2^47-1"
const LEAST: i64 = -140737488355328;

const MOST: i64 = 140737488355327;

// "a whole number from -2^47 to 2^47-1"
fn in_range(z: i64) -> bool
    ensures { result ≡ in_range z }
{
    (LEAST..=MOST).contains(&z)
}

// "A sum or difference outside the number range is undefined."
fn ranged(z: i64) -> Number
    ensures { result ≡ ranged z }
{
    if in_range(z) {
        Number::Whole(z)
    } else {
        Number::Undefined
    }
}

fn negative(z: i64) -> bool
    ensures { result ≡ negative z }
{
    z < 0
}

// Whether a + b can be taken: if not, it is outside the number range.
fn addable(a: i64, b: i64) -> bool
    ensures { result ≡ addable a b }
{
    negative(a) != negative(b) || in_range(a) && in_range(b)
}

fn add(a: i64, b: i64) -> Number
    ensures { result ≡ ranged (a +ℤ b) }
{
    if addable(a, b) {
        ranged(a + b)
    } else {
        Number::Undefined
    }
}

// a - b can be taken if a + (-1 - b) can.
fn subtract(a: i64, b: i64) -> Number
    ensures { result ≡ ranged (a -ℤ b) }
{
    if addable(a, -1 - b) {
        ranged(a - b)
    } else {
        Number::Undefined
    }
}

// Sum and difference, less and equal are of one shape, for reason (d): one function of a closure would say less in more lines.
impl Number {
    // "Sum ... undefined where an operand is."
    pub fn sum(self, other: Number) -> Number
        ensures { result ≡ sum_n self other }
    {
        match (self, other) {
            (Number::Whole(a), Number::Whole(b)) => add(a, b),
            _ => Number::Undefined,
        }
    }

    // "difference N N (first less second)", "undefined where an operand is"
    pub fn difference(self, other: Number) -> Number
        ensures { result ≡ difference_n self other }
    {
        match (self, other) {
            (Number::Whole(a), Number::Whole(b)) => subtract(a, b),
            _ => Number::Undefined,
        }
    }

    // "less ... undefined where an operand is."
    pub fn less(self, other: Number) -> Truth
        ensures { result ≡ less_n self other }
    {
        match (self, other) {
            (Number::Whole(a), Number::Whole(b)) => Truth::from(a < b),
            _ => Truth::Undefined,
        }
    }

    // "equal ... undefined where an operand is."
    pub fn equal(self, other: Number) -> Truth
        ensures { result ≡ equal_n self other }
    {
        match (self, other) {
            (Number::Whole(a), Number::Whole(b)) => Truth::from(a == b),
            _ => Truth::Undefined,
        }
    }

    // "A number is undefined or a whole number from -2^47 to 2^47-1."
    pub fn in_range(self) -> bool
        ensures { result ≡ fits_n self }
    {
        match self {
            Number::Undefined => true,
            Number::Whole(z) => in_range(z),
        }
    }
}
