// A table's counts and its unused slots: refusal 4.
ghost use Rattle.std.specs.Prelude.{not, ◌≡◌};
ghost use Rattle.std.specs.List.{list_all};
ghost use Rattle.table.specs.Faults.{limits_fault};
ghost use Rattle.sound.specs.Judged.{counts_kept, zero_slot};
ghost use Rattle.table.specs.Tables.{is_undefined};

use crate::judging::unless;
use refusals::Refusal;
use table::{Entry, Table};
use values::Number;

// "entries at most 128, imports at most 48, variables at most 32", and at least one entry.
fn counts_kept(n: usize, q: usize, v: usize) -> bool
    ensures { result ≡ counts_kept n q v }
{
    1 <= n && n <= Table::ENTRIES && q <= Table::IMPORTS && v <= Table::VARIABLES
}

// "unused entry slots are the constant 0"
#[tactic(auto, unfolding(table::specs::Kinds::operands_of))]
fn all_zero(entries: &[Entry]) -> bool
    ensures { result ≡ list_all zero_slot entries.now }
{
    entries.iter().all(|slot| *slot == Entry::Constant(0))
}

// "unused import slots conditions"
fn all_conditions(events: &[bool]) -> bool
    ensures { result ≡ list_all not events.now }
{
    events.iter().all(|event| !*event)
}

// "unused variable slots undefined"
fn all_undefined(variables: &[Number]) -> bool
    ensures { result ≡ list_all is_undefined variables.now }
{
    variables.iter().all(|slot| *slot == Number::Undefined)
}

// "4: n, q or v outside its limits ...; in the writer, also an unused slot not as above"
#[tactic(auto, using(crate::specs::Slots::limits_in_turn))]
pub(crate) fn limits_fault(t: Table) -> Result<(), Refusal>
    ensures { result ≡ limits_fault t }
{
    if !counts_kept(t.n, t.q, t.v) {
        return Err(Refusal::TableLimits);
    }
    unless(all_zero(&t.entries[t.n..]), Refusal::TableLimits)?;
    unless(all_conditions(&t.events[t.q..]), Refusal::TableLimits)?;
    unless(all_undefined(&t.variables[t.v..]), Refusal::TableLimits)
}
