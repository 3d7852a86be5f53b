// What each kind of entry says at one step.
ghost use Rattle.std.specs.Prelude.{◌≡◌, ◌&&◌};
ghost use Rattle.values.specs.Truths.{is_true};
ghost use Rattle.step.specs.Steps.{occurs_in, value_in};
ghost use Rattle.meaning.specs.Meaning.{starts, ends, meaning};

use crate::Givens;
use step::Told;
use table::Entry;
use values::{Number, Outcome, Truth};

// "An imported event occurs in the steps that report it."
fn occurs(told: Told) -> bool
    ensures { result ≡ occurs_in told }
{
    matches!(told, Told::Event(_))
}

// "Value is the value reported in this step, else undefined."
fn value(told: Told) -> Number
    ensures { result ≡ value_in told }
{
    match told {
        Told::Event(x) => x,
        Told::Nothing | Told::Condition(_) => Number::Undefined,
    }
}

// "Start occurs where the condition is true and was not true one step before."
fn starts(now: Truth, stood: bool) -> bool
    ensures { result ≡ starts now stood }
{
    if now.is_true() { !stood } else { false }
}

// "End occurs where it is false and was not false one step before."
fn ends(now: Truth, failed: bool) -> bool
    ensures { result ≡ ends now failed }
{
    if now.is_false() { !failed } else { false }
}

// "when needs its condition to be true"
fn when(event: bool, condition: Truth) -> bool
    ensures { result ≡ (event && is_true condition) }
{
    if event { condition.is_true() } else { false }
}

// The result of an entry, from the results x and y at its first and second operand entry and what else is given.
#[tactic(auto, unfolding(crate::specs::Meaning::meaning))]
pub fn result(e: Entry, x: Outcome, y: Outcome, g: Givens) -> Outcome
    ensures { result ≡ meaning e x y g }
{
    match e {
        Entry::ImportedCondition(_) => Outcome::Condition(g.reported),
        Entry::Defined(_) => Outcome::Condition(x.condition().defined()),
        Entry::Pair(_, _) => Outcome::Condition(Truth::from(g.paired)),
        Entry::Not(_) => Outcome::Condition(x.condition().not()),
        Entry::Or(_, _) => Outcome::Condition(x.condition().or(y.condition())),
        Entry::And(_, _) => Outcome::Condition(x.condition().and(y.condition())),
        Entry::Implies(_, _) => Outcome::Condition(x.condition().implies(y.condition())),
        Entry::Less(_, _) => Outcome::Condition(x.number().less(y.number())),
        Entry::Equal(_, _) => Outcome::Condition(x.number().equal(y.number())),
        Entry::ImportedEvent(_) => Outcome::Event(occurs(g.told)),
        Entry::Start(_) => Outcome::Event(starts(x.condition(), g.stood)),
        Entry::End(_) => Outcome::Event(ends(x.condition(), g.failed)),
        Entry::Both(_, _) => Outcome::Event(x.event() & y.event()),
        Entry::Either(_, _) => Outcome::Event(x.event() | y.event()),
        Entry::When(_, _) => Outcome::Event(when(x.event(), y.condition())),
        Entry::Constant(z) => Outcome::Numeric(Number::Whole(z)),
        Entry::Variable(_) => Outcome::Numeric(g.held),
        Entry::Sum(_, _) => Outcome::Numeric(x.number().sum(y.number())),
        Entry::Difference(_, _) => Outcome::Numeric(x.number().difference(y.number())),
        Entry::Clock => Outcome::Numeric(Number::Whole(g.clock)),
        Entry::Value(_) => Outcome::Numeric(value(g.told)),
        Entry::Time(_) => Outcome::Numeric(g.latest),
        Entry::Update(_, _, _) => Outcome::Done(x.event()),
        Entry::Alarm(_) => Outcome::Raised(x.event()),
        Entry::Property(_) => Outcome::Property(x.condition()),
    }
}
