// How many bytes a table takes when it is packed.
ghost use Rattle.std.specs.Prelude.{◌≡◌, ◌+◌, ◌/◌};
ghost use Rattle.bits.specs.Holding.{width_of_all};
ghost use Rattle.script.specs.Writer.{entry_parts, table_parts};
ghost use Rattle.table.specs.Sound.{Within};

use table::{Entry, Table};

// How many bits an entry takes: 5 bits of kind, then its operands.
fn entry_width(e: Entry) -> usize
    ensures { result ≡ width_of_all (entry_parts e) }
{
    let apart = kinds::apart_of(e);
    5 + apart.first.width() + apart.second.width() + apart.third.width()
}

// How many bytes the table takes: the header, a bit for each import, 49 bits for each variable, the entries, and zero bits up to a whole byte.
pub(crate) fn packed_size(t: Table) -> usize
    requires { Within t }
    ensures { result ≡ (width_of_all (table_parts t) + 7) / 8 }
{
    let mut width = 32 + t.q + t.v * 49;
    for k in 0..t.n {
        width += entry_width(t.entries[k]);
    }
    (width + 7) / 8
}
