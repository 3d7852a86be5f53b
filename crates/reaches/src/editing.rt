// Edits of a table, so that there are tables that no script has.
use casebook::{byte, number, set, word};
use table::{Entry, Table};
use values::Number;

// The entry of a kind and three operands.
fn made(e: &[u8]) -> Entry {
    kinds::made(byte(e, 2) as usize, word(e, 3), word(e, 5), word(e, 7), 0)
}

// One edit, 10 bytes: a letter, a slot, and eight bytes: a number, or a kind and three operands of two bytes each.
fn edit(t: &mut Table, e: &[u8]) {
    let slot = byte(e, 1) as usize;
    let v = number(e, 2, 8);
    let whole = (v % 9223372036854775808) as i64;
    match byte(e, 0) {
        b'e' => set(&mut t.entries, slot, made(e)),
        b'k' => set(&mut t.entries, slot, Entry::Constant(whole)),
        b'x' => set(&mut t.variables, slot, Number::Whole(whole)),
        b'i' => set(&mut t.events, slot, v == 1),
        b'n' => t.n = v as usize,
        b'q' => t.q = v as usize,
        _ => t.v = v as usize,
    }
}

// The table with every edit of a list. Each program has its own, for reason (d): two lines over edits of its own length.
pub(crate) fn edited(t: Table, edits: &[u8]) -> Table {
    let mut table = t;
    for e in edits.chunks_exact(10) {
        edit(&mut table, e);
    }
    table
}
