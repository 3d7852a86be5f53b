// The reach of an entry, found in a time that grows with the entries and operands of its table.
#![tactic(auto)]

mod following;
mod touched;
mod updates;

ghost use Rattle.std.specs.Prelude.{◌≡◌};
ghost use Rattle.reach.specs.Reaching.{no_marks, reach_fault, ReachReply};

use crate::following::reached;
use crate::touched::{Touched, touched_by};
use crate::updates::linked;
use reach::Reach;
use refusals::Refusal;
use table::Table;

// "A refused reach returns no marks."
fn no_marks(refusal: Refusal) -> Reach
    ensures { result ≡ no_marks refusal }
{
    Reach {
        answer: Err(refusal),
        entries: [false; Table::ENTRIES],
        imports: [false; Table::IMPORTS],
        clock: false,
    }
}

// The reach of an entry: "29 before all else in ... a reach, 30 last"; "A refused reach returns no marks."
pub fn of_entry(t: Table, entry: usize) -> Reach
    ensures { ReachReply t entry (reach_fault t entry) result }
{
    let found = sound::fault(t);
    if let Err(_) = found {
        return no_marks(Refusal::Unsound);
    }
    if t.n <= entry {
        return no_marks(Refusal::NoEntry);
    }
    let marks = reached(t, linked(t), entry);
    let Touched { imports, clock } = touched_by(t, &marks);
    Reach {
        answer: Ok(()),
        entries: marks,
        imports,
        clock,
    }
}
