// What the reached entries touch: the imports that they name, and the clock.
ghost use Rattle.std.specs.Prelude.{true, ◌||◌, ◌≡◌, eqb, length, set};
ghost use Rattle.table.specs.Limits.{limits};
ghost use Rattle.table.specs.Sound.{Sound};
ghost use Rattle.reacher.specs.Named.{import_named};
ghost use Rattle.reacher.specs.Touching.{Touches};

use kinds::{Operand, apart_of};
use table::Table;

// The marks of the imports, and whether the clock is reached.
#[derive(Clone, Copy)]
pub(crate) struct Touched {
    pub(crate) imports: [bool; Table::IMPORTS],
    pub(crate) clock: bool,
}

// The import that an operand names; where it names none, a number past the slots.
fn import_named(o: Operand) -> usize
    ensures { result ≡ import_named o }
{
    match o {
        Operand::Imported(_, i) => i as usize,
        _ => Table::IMPORTS,
    }
}

// Marks an import; past the slots there is none.
fn mark(imports: &mut [bool; Table::IMPORTS], i: usize)
    requires { length imports.old ≡ limits.imports }
    ensures { imports.new ≡ set imports.old i true }
{
    if i < Table::IMPORTS {
        imports[i] = true;
    }
}

// "the clock exactly if the set holds kind 19 or 21"
fn is_clock(kind: usize) -> bool
    ensures { result ≡ (eqb kind 19 || eqb kind 21) }
{
    (kind == 19) | (kind == 21)
}

// "It reaches an import exactly if kind 0, 9 or 20 in the set names it": each marked entry is taken apart once.
pub(crate) fn touched_by(t: Table, marks: &[bool; Table::ENTRIES]) -> Touched
    requires { Sound t }
    ensures { Touches t marks.now result }
{
    let mut imports = [false; Table::IMPORTS];
    let mut clock = false;
    for k in 0..t.n {
        if marks[k] {
            let parts = apart_of(t.entries[k]);
            mark(&mut imports, import_named(parts.first));
            clock |= is_clock(parts.kind);
        }
    }
    Touched { imports, clock }
}
