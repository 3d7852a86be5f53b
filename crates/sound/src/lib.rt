// Whether a table is sound: refusals 4, 7, 8 and 13 in the order of the writer's check.
#![tactic(auto)]

mod judging;
mod slots;

ghost use Rattle.std.specs.Prelude.{◌≡◌, ◌≤◌};
ghost use Rattle.std.specs.List.{list_all};
ghost use Rattle.refusals.specs.Numbering.{first_fault};
ghost use Rattle.table.specs.Limits.{limits};
ghost use Rattle.table.specs.Kinds.{operands_of};
ghost use Rattle.table.specs.Tables.{entry_at};
ghost use Rattle.values.specs.Numbers.{fits_n};
ghost use Rattle.table.specs.Faults.{operands_fault, table_fault};

use crate::judging::unless;
use crate::slots::limits_fault;
pub use judging::Known;
use kinds::{apart_of, sort_of_kind};
use refusals::Refusal;
use table::Table;
use values::Number;

// "variables (13; ...)"
fn all_fit(variables: &[Number]) -> bool
    ensures { result ≡ list_all fits_n variables.now }
{
    variables.iter().all(|slot| slot.in_range())
}

// "entries in order (7, 8, 13)"; the sorts of the entries passed are kept as numbers.
fn entries_fault(t: Table) -> Result<(), Refusal>
    requires { t.n ≤ limits.entries }
    ensures { result ≡ first_fault t.n (λ k. operands_fault t k (operands_of (entry_at t k))) }
{
    let mut sorts = [0u8; Table::ENTRIES];
    for k in 0..t.n {
        let parts = apart_of(t.entries[k]);
        let known = Known {
            k,
            q: t.q,
            v: t.v,
            sorts: &sorts,
            events: &t.events,
        };
        known.judge_all(parts)?;
        sorts[k] = sort_of_kind(parts.kind);
    }
    Ok(())
}

// "it checks 4, then variables (13; ...), entries in order (7, 8, 13)"
#[tactic(auto, using(crate::specs::Firsts::table_in_turn, crate::specs::Firsts::variables_kept, crate::specs::Firsts::entries_kept))]
pub fn fault(t: Table) -> Result<(), Refusal>
    ensures { result ≡ table_fault t }
{
    limits_fault(t)?;
    unless(all_fit(&t.variables[..t.v]), Refusal::Range)?;
    entries_fault(t)
}
