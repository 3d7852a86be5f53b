// Results as text.
use monitor::Stepped;
use std::{fmt, io};
use values::{Number, Outcome, Truth};

// A result in one word: document 01's, but "-" for an event that does not occur.
#[derive(Clone, Copy)]
struct Word(Outcome);

// The word for what is so, or the word for what is not.
fn either(so: bool, yes: &'static str, no: &'static str) -> &'static str {
    if so { yes } else { no }
}

// "A property is violated where its condition is false; undefined is reported as not known."
fn property(t: Truth) -> &'static str {
    match t {
        Truth::Undefined => "not-known",
        Truth::False => "violated",
        Truth::True => "not-violated",
    }
}

impl fmt::Display for Word {
    fn fmt<W: fmt::Write>(&self, f: &mut fmt::Formatter<W>) -> fmt::Result {
        match self.0 {
            Outcome::Nothing => f.write_str("no-result"),
            Outcome::Condition(c) => write!(f, "{c}"),
            Outcome::Event(b) => f.write_str(either(b, "occurs", "-")),
            Outcome::Numeric(Number::Undefined) => f.write_str("undefined-number"),
            Outcome::Numeric(x) => write!(f, "{x}"),
            Outcome::Done(b) => f.write_str(either(b, "done", "not-done")),
            Outcome::Raised(b) => f.write_str(either(b, "raised", "not-raised")),
            Outcome::Property(c) => f.write_str(property(c)),
        }
    }
}

// The results of the first n slots.
pub(crate) fn say_results(rt: &impl Print, r: Stepped, n: usize) -> io::Result<()> {
    for slot in r.results.iter().take(n) {
        print!(rt; " {}", Word(slot.outcome))?;
    }
    Ok(())
}

// How many of the slots from n on hold "no result".
pub(crate) fn say_nothings(rt: &impl Print, r: Stepped, n: usize) -> io::Result<()> {
    let count = r
        .results
        .iter()
        .skip(n)
        .filter(|slot| slot.outcome == Outcome::Nothing)
        .count();
    print!(rt; " | {count} no result")
}
