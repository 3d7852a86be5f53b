// Entries as text.
ghost use Rattle.std.specs.Prelude.{Some};
ghost use Rattle.table.specs.Texts.{entry_text};

use crate::Entry;
use std::fmt;

// The document's word for the kind, and the operands; an import is called by its sort.
impl fmt::Display for Entry {
    ghost output = { λ e. Some (entry_text e) };

    fn fmt<W: fmt::Write>(&self, f: &mut fmt::Formatter<W>) -> fmt::Result {
        match self {
            Entry::ImportedCondition(i) => write!(f, "condition {i}"),
            Entry::Defined(a) => write!(f, "defined {a}"),
            Entry::Pair(a, b) => write!(f, "pair {a} {b}"),
            Entry::Not(a) => write!(f, "not {a}"),
            Entry::Or(a, b) => write!(f, "or {a} {b}"),
            Entry::And(a, b) => write!(f, "and {a} {b}"),
            Entry::Implies(a, b) => write!(f, "implies {a} {b}"),
            Entry::Less(a, b) => write!(f, "less {a} {b}"),
            Entry::Equal(a, b) => write!(f, "equal {a} {b}"),
            Entry::ImportedEvent(i) => write!(f, "event {i}"),
            Entry::Start(a) => write!(f, "start {a}"),
            Entry::End(a) => write!(f, "end {a}"),
            Entry::Both(a, b) => write!(f, "both {a} {b}"),
            Entry::Either(a, b) => write!(f, "either {a} {b}"),
            Entry::When(a, b) => write!(f, "when {a} {b}"),
            Entry::Constant(z) => write!(f, "constant {z}"),
            Entry::Variable(x) => write!(f, "variable {x}"),
            Entry::Sum(a, b) => write!(f, "sum {a} {b}"),
            Entry::Difference(a, b) => write!(f, "difference {a} {b}"),
            Entry::Clock => f.write_str("clock"),
            Entry::Value(i) => write!(f, "value {i}"),
            Entry::Time(a) => write!(f, "time {a}"),
            Entry::Update(a, x, b) => write!(f, "update {a} {x} {b}"),
            Entry::Alarm(a) => write!(f, "alarm {a}"),
            Entry::Property(a) => write!(f, "property {a}"),
        }
    }
}
