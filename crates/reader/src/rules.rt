// The entries of a script, each read by what is known of those before it, and put in its slot.
ghost use Rattle.std.specs.Prelude.{◌≡◌, ◌≤◌, length};
ghost use Rattle.script.specs.Reader.{entries};
ghost use Rattle.reader.specs.Stages.{reached};

use crate::Stage;
use refusals::Refusal;
use sound::Known;
use table::Table;

// "n entries"
pub(crate) fn rules(s: &[u8], from: usize, t: Table) -> Result<Stage, Refusal>
    requires { (length s.now ≤ 4096) × ((t.n ≤ 128) × (length t.entries ≡ 128)) }
    ensures { reached result ≡ entries t.n 0 t s.now from }
{
    let mut table = t;
    let mut sorts = [0u8; Table::ENTRIES];
    let mut at = from;
    for k in 0..t.n {
        let known = Known {
            k,
            q: t.q,
            v: t.v,
            sorts: &sorts,
            events: &t.events,
        };
        let (entry, next) = entries::read(s, at, known)?;
        sorts[k] = kinds::sort_of_kind(kinds::apart_of(entry).kind);
        table.entries[k] = entry;
        at = next;
    }
    Ok(Stage { at, table })
}
