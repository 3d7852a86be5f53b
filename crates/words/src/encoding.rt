// The word of each value: a number, a condition, a result, an entry.
ghost use Rattle.std.specs.Prelude.{◌≡◌, ◌<◌, ◌^◌};
ghost use Rattle.meaning.specs.declared.Places.{Places};
ghost use Rattle.words.specs.Words.{number_word, truth_word, either_word, property_word, outcome_word, place_word, operand_word, entry_word};
ghost use Rattle.words.specs.Encoding.{entry_unit, placed_word};

use kinds::{Operand, apart_of};
use table::Entry;
use values::{Number, Outcome, Truth};

// A whole number, as far from the word of 0 as it is from 0; one out of range has no word of its own.
fn whole_word(z: i64) -> u64
    ensures { result ≡ number_word (Number.Whole z) }
{
    if z < -140737488355328 {
        return 4;
    }
    if z < 140737488355328 {
        return (z + 422212465065984) as u64;
    }
    4
}

// "A number is undefined or a whole number from -2^47 to 2^47-1."
pub fn number_word(x: Number) -> u64
    ensures { result ≡ number_word x }
{
    match x {
        Number::Undefined => 4,
        Number::Whole(z) => whole_word(z),
    }
}

// "A condition is true, false or undefined."
pub fn truth_word(c: Truth) -> u64
    ensures { result ≡ truth_word c }
{
    match c {
        Truth::Undefined => 1,
        Truth::False => 2,
        Truth::True => 3,
    }
}

// Of two words, the one for what is so and the one for what is not.
pub(crate) fn either_word(b: bool, y: u64, n: u64) -> u64
    ensures { result ≡ either_word b y n }
{
    if b { y } else { n }
}

// A property's condition: not known, violated, not violated. Of the shape of `truth_word`, for reason (d): each is a table of the words.
fn property_word(c: Truth) -> u64
    ensures { result ≡ property_word c }
{
    match c {
        Truth::Undefined => 11,
        Truth::False => 12,
        Truth::True => 13,
    }
}

// The word of each result; no two results have the same.
pub fn outcome_word(o: Outcome) -> u64
    ensures { result ≡ outcome_word o }
{
    match o {
        Outcome::Nothing => 0,
        Outcome::Condition(c) => truth_word(c),
        Outcome::Event(b) => either_word(b, 6, 5),
        Outcome::Numeric(x) => number_word(x),
        Outcome::Done(b) => either_word(b, 8, 7),
        Outcome::Raised(b) => either_word(b, 10, 9),
        Outcome::Property(c) => property_word(c),
    }
}

// What an operand adds to where its entry looks: 7 bits for each of two entries, 5 for a variable, 6 for an import.
fn placed_word(o: Operand, second: bool) -> u64
    ensures { (result ≡ placed_word o (entry_unit second)) × (result < 2 ^ 35) }
{
    match o {
        Operand::Entry(_, a) => { if second { 128 * (a as u64) } else { a as u64 } }
        Operand::Imported(_, i) => 524288 * (i as u64),
        Operand::Variable(x) => 16384 * (x as u64),
        Operand::Nothing | Operand::Constant(_) => 0,
    }
}

// A constant is its number's word; any other entry is where it looks.
fn operand_word(o: Operand, places: u64) -> u64
    requires { places < 2 ^ 37 }
    ensures { ((p : Places) → place_word p ≡ places → result ≡ operand_word o p) × (result < 2 ^ 49) }
{
    match o {
        Operand::Constant(z) => whole_word(z),
        _ => places,
    }
}

// An entry: 5 bits of kind, and what follows it.
pub(crate) fn entry_word(e: Entry) -> u64
    ensures { result ≡ entry_word e }
{
    let parts = apart_of(e);
    let places = placed_word(parts.first, false)
        + placed_word(parts.second, true)
        + placed_word(parts.third, true);
    parts.kind as u64 + 32 * operand_word(parts.first, places)
}
