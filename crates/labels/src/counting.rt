// How many entries of a table have a label.
ghost use Rattle.std.specs.Prelude.{◌≡◌};
ghost use Rattle.table.specs.Kinds.{labelled};
ghost use Rattle.table.specs.Tables.{labels_before};

use table::{Entry, Table};

// "For each alarm and property entry"
#[tactic(auto, unfolding(table::specs::Kinds::labelled, table::specs::Kinds::kind_of))]
pub fn labelled(e: Entry) -> bool
    ensures { result ≡ labelled e }
{
    matches!(e, Entry::Alarm(_) | Entry::Property(_))
}

// How many of the entries before k have a label; past the 128 slots there is none.
pub fn before(t: Table, k: usize) -> usize
    ensures { result ≡ labels_before t k }
{
    let slots = &t.entries[..k.min(Table::ENTRIES)];
    slots.iter().filter(|slot| labelled(**slot)).count()
}
