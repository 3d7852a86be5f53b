// Edits of a table, so that there are tables that no script has.
use casebook::{byte, number, set, word};
use table::{Entry, Table};
use values::Number;

// A whole number: a byte that is 1 if it is negative, and eight bytes that hold it, or -1 less it.
fn whole(e: &[u8]) -> i64 {
    let z = (number(e, 10, 8) % 9223372036854775808) as i64;
    if byte(e, 9) == 1 { !z } else { z }
}

// The entry of a kind, three operands and a whole number.
fn entry(e: &[u8]) -> Entry {
    kinds::made(
        byte(e, 2) as usize,
        word(e, 3),
        word(e, 5),
        word(e, 7),
        whole(e),
    )
}

// A whole number, or none where the kind is 0.
fn variable(e: &[u8]) -> Number {
    match byte(e, 2) {
        0 => Number::Undefined,
        _ => Number::Whole(whole(e)),
    }
}

// One edit, 18 bytes: a letter, a slot, a kind, three operands of two bytes each, and a whole number.
fn edit(t: &mut Table, e: &[u8]) {
    let slot = byte(e, 1) as usize;
    let count = number(e, 10, 8) as usize;
    match byte(e, 0) {
        b'e' => set(&mut t.entries, slot, entry(e)),
        b'x' => set(&mut t.variables, slot, variable(e)),
        b'i' => set(&mut t.events, slot, byte(e, 2) == 1),
        b'n' => t.n = count,
        b'q' => t.q = count,
        b'v' => t.v = count,
        _ => {}
    }
}

// The table with every edit of a list. Each program has its own, for reason (d): two lines over edits of its own length.
pub(crate) fn edited(t: Table, edits: &[u8]) -> Table {
    let mut table = t;
    for e in edits.chunks_exact(18) {
        edit(&mut table, e);
    }
    table
}
