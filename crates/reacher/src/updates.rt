// The updates of each variable, linked from the last to the first.
ghost use Rattle.std.specs.Prelude.{◌≡◌, length};
ghost use Rattle.table.specs.Limits.{limits};
ghost use Rattle.table.specs.Sound.{Sound};
ghost use Rattle.reacher.specs.Named.{variable_named};
ghost use Rattle.reacher.specs.Linking.{Replaced, Links};

use kinds::{Operand, apart_of};
use std::mem;
use table::Table;

// Links to updates: of each variable to its last, and of each update to the one before it of the same variable.
// A link is one more than an update's entry, and 0 where there is none.
#[derive(Clone, Copy)]
pub(crate) struct Updates {
    pub(crate) last: [u16; Table::VARIABLES],
    pub(crate) before: [u16; Table::ENTRIES],
}

// The variable that an operand names; where it names none, a number past the slots.
pub(crate) fn variable_named(o: Operand) -> usize
    ensures { result ≡ variable_named o }
{
    match o {
        Operand::Variable(x) => x as usize,
        _ => Table::VARIABLES,
    }
}

// Gives a variable another last link, and answers the one it had; past the slots there is none.
fn replace(last: &mut [u16; Table::VARIABLES], x: usize, link: u16) -> u16
    requires { length last.old ≡ limits.variables }
    ensures { Replaced last.old x link last.new result }
{
    if x < Table::VARIABLES {
        return mem::replace(&mut last[x], link);
    }
    0
}

// Cuts the last link of a variable, and answers it.
pub(crate) fn cut(last: &mut [u16; Table::VARIABLES], x: usize) -> u16
    requires { length last.old ≡ limits.variables }
    ensures { Replaced last.old x 0 last.new result }
{
    replace(last, x, 0)
}

// One pass over the entries links every update to the one before it.
pub(crate) fn linked(t: Table) -> Updates
    requires { Sound t }
    ensures { Links t result }
{
    let mut last = [0u16; Table::VARIABLES];
    let mut before = [0u16; Table::ENTRIES];
    for k in 0..t.n {
        let parts = apart_of(t.entries[k]);
        before[k] = replace(&mut last, variable_named(parts.second), (k + 1) as u16);
    }
    Updates { last, before }
}
