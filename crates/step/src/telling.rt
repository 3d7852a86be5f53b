// A form in which what a report tells is kept.

use crate::Told;
use values::{Number, Truth};

// A form of what a report tells: `Told` itself, or a word for it.
pub trait Telling: Copy + Drop {
    ghost use Rattle.std.specs.Prelude.{◌≡◌, ◌<◌, ◌^◌};
    ghost use Rattle.values.specs.declared.Number as numbers;
    ghost use Rattle.bits.specs.Twos.{signed};
    ghost use Rattle.step.specs.declared.Told as tellings;
    ghost use Rattle.step.specs.Reader.{truth_code};

    // the form that something told has
    ghost form: { tellings.Told → Self };

    // A condition, by its 2 bits: "00 false, 01 true, 10 undefined"
    fn condition(code: u64) -> Self
        ensures { result ≡ form (tellings.Told.Condition (truth_code code)) };

    // An event without a value.
    fn event() -> Self
        ensures { result ≡ form (tellings.Told.Event numbers.Number.Undefined) };

    // An event with a value, by its 48 bits.
    fn valued(bits: u64) -> Self
        requires { bits < 2 ^ 48 }
        ensures { result ≡ form (tellings.Told.Event (numbers.Number.Whole (signed bits))) };
}

// What is told, as it is.
impl Telling for Told {
    ghost form = { λ told. told };

    fn condition(code: u64) -> Told {
        Told::Condition(match code {
            0 => Truth::False,
            1 => Truth::True,
            _ => Truth::Undefined,
        })
    }

    fn event() -> Told {
        Told::Event(Number::Undefined)
    }

    fn valued(bits: u64) -> Told {
        Told::Event(Number::Whole(bits::signed(bits)))
    }
}
