// The table of a script: all that comes before the labels, one stage after another.
// Fields are taken apart by let .. else, for reason (a): document 01 names the form.
ghost use Rattle.std.specs.Prelude.{◌≡◌, ◌*◌, ◌≤◌, length};
ghost use Rattle.script.specs.Reader.{packed_table};
ghost use Rattle.reader.specs.Packs.{after_entries};
ghost use Rattle.reader.specs.Stages.{reached};

use crate::Stage;
use crate::head::{header, imports, variables};
use crate::rules::rules;
use refusals::Refusal;
use table::Table;

// "Zero bits up to a whole byte."
fn padded(s: &[u8], at: usize, table: Table) -> Result<Stage, Refusal>
    requires { at ≤ 65536 }
    ensures { reached result ≡ after_entries s.now table at }
{
    let w = (8 - at % 8) % 8;
    let Some(zeros) = bits::field_at(s, at, w) else {
        return Err(Refusal::Cut);
    };
    if zeros != 0 {
        return Err(Refusal::Padding);
    }
    Ok(Stage { at: at + w, table })
}

// The table, and the bit at which its labels begin.
pub(crate) fn packed(s: &[u8]) -> Result<Stage, Refusal>
    requires { length s.now ≤ 4096 }
    ensures { reached result ≡ packed_table s.now 0 }
{
    let head = header(s)?;
    let sorted = imports(s, head.at, head.table)?;
    let started = variables(s, sorted.at, sorted.table)?;
    let ruled = rules(s, started.at, started.table)?;
    padded(s, ruled.at, ruled.table)
}
