// Where each kind of entry looks.
ghost use Rattle.std.specs.Prelude.{◌≡◌};
ghost use Rattle.meaning.specs.Places.{places_of};

use crate::Places;
use table::Entry;

// A look at two entries, an import and a variable; each is 0 where the entry has none.
fn looking(first: u16, second: u16, imported: u16, variable: u16) -> Places
    ensures { result ≡ record { first = first; second = second; imported = imported; variable = variable } }
{
    Places {
        first: first as usize,
        second: second as usize,
        imported: imported as usize,
        variable: variable as usize,
    }
}

// Where an entry looks, by the operands of its kind.
#[tactic(auto, unfolding(crate::specs::Places::places_of, table::specs::Kinds::operands_of))]
pub fn places_of(e: Entry) -> Places
    ensures { result ≡ places_of e }
{
    match e {
        Entry::Constant(_) | Entry::Clock => looking(0, 0, 0, 0),
        Entry::Variable(v) => looking(0, 0, 0, v),
        Entry::ImportedCondition(i) | Entry::ImportedEvent(i) | Entry::Value(i) => {
            looking(0, 0, i, 0)
        }
        Entry::Defined(a)
        | Entry::Not(a)
        | Entry::Start(a)
        | Entry::End(a)
        | Entry::Time(a)
        | Entry::Alarm(a)
        | Entry::Property(a) => looking(a, 0, 0, 0),
        Entry::Pair(a, b)
        | Entry::Or(a, b)
        | Entry::And(a, b)
        | Entry::Implies(a, b)
        | Entry::Less(a, b)
        | Entry::Equal(a, b)
        | Entry::Both(a, b)
        | Entry::Either(a, b)
        | Entry::When(a, b)
        | Entry::Sum(a, b)
        | Entry::Difference(a, b) => looking(a, b, 0, 0),
        Entry::Update(a, v, b) => looking(a, b, 0, v),
    }
}
