// The entries that an entry leads to, and all that those lead to in turn.
ghost use Rattle.std.specs.Prelude.{[], ◌∷◌, ◌≡◌, ◌<◌, ◌≤◌};
ghost use Rattle.table.specs.Limits.{limits};
ghost use Rattle.table.specs.Sound.{Sound};
ghost use Rattle.reacher.specs.Adding.{found, Adds, Room};
ghost use Rattle.reacher.specs.Along.{linked_from};
ghost use Rattle.reacher.specs.Linking.{Falls, Links};
ghost use Rattle.reacher.specs.Named.{entry_named, entries_named};
ghost use Rattle.reacher.specs.Following.{Reached};

use crate::updates::{Updates, cut, variable_named};
use kinds::{Apart, Operand, apart_of};
use table::Table;

// The entry that an operand names; where it names none, a number past the slots. `import_named` and `variable_named` have its shape, for reason (d):
// which case is taken is all that it says.
fn entry_named(o: Operand) -> usize
    ensures { result ≡ entry_named o }
{
    match o {
        Operand::Entry(_, a) => a as usize,
        _ => Table::ENTRIES,
    }
}

// Marks an entry and puts it last, unless it was marked; past the slots there is no entry. How many are found then.
fn add(
    marks: &mut [bool; Table::ENTRIES],
    order: &mut [u16; Table::ENTRIES],
    count: usize,
    j: usize,
) -> usize
    requires { Room (found marks.old order.old count) }
    ensures { Adds (found marks.old order.old count) (j ∷ []) (found marks.new order.new result) }
{
    if j < Table::ENTRIES && !marks[j] {
        marks[j] = true;
        order[count] = j as u16;
        return count + 1;
    }
    count
}

// "with any entry, its operand entries"
fn add_operands(
    parts: Apart,
    marks: &mut [bool; Table::ENTRIES],
    order: &mut [u16; Table::ENTRIES],
    count: usize,
) -> usize
    requires { Room (found marks.old order.old count) }
    ensures { Adds (found marks.old order.old count) (entries_named parts) (found marks.new order.new result) }
{
    let one = add(marks, order, count, entry_named(parts.first));
    let two = add(marks, order, one, entry_named(parts.second));
    add(marks, order, two, entry_named(parts.third))
}

// "every update of that variable": those that the links lead through.
fn add_updates(
    before: &[u16; Table::ENTRIES],
    from: u16,
    marks: &mut [bool; Table::ENTRIES],
    order: &mut [u16; Table::ENTRIES],
    count: usize,
) -> usize
    requires { Falls before.now × (from ≤ limits.slots) × Room (found marks.old order.old count) }
    ensures { Adds (found marks.old order.old count) (linked_from before.now from) (found marks.new order.new result) }
{
    let mut total = count;
    let mut link = from;
    // A `while`: it goes along links, and counts no index.
    while 0 < link {
        let j = (link - 1) as usize;
        total = add(marks, order, total, j);
        link = before[j];
    }
    total
}

// The entries that entry k reaches: each that is found is taken apart once, in the order in which they were found.
// The links of a variable are cut when it is first read, so that each update is followed once.
pub(crate) fn reached(t: Table, u: Updates, k: usize) -> [bool; Table::ENTRIES]
    requires { Sound t × (k < t.n) × Links t u }
    ensures { Reached t k result }
{
    let mut last = u.last;
    let mut marks = [false; Table::ENTRIES];
    let mut order = [0u16; Table::ENTRIES];
    let mut count = add(&mut marks, &mut order, 0, k);
    let mut head = 0;
    // A `while`: the queue grows as it is gone through, so that no range or slice holds what is still to come.
    while head < count {
        let j = order[head] as usize;
        let parts = apart_of(t.entries[j]);
        count = add_operands(parts, &mut marks, &mut order, count);
        let link = cut(&mut last, variable_named(parts.first));
        count = add_updates(&u.before, link, &mut marks, &mut order, count);
        head += 1;
    }
    marks
}
