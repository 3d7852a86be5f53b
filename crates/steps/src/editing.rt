// Edits of a monitor, so that there are monitors that no start led to.
use casebook::{byte, number, set};
use monitor::Monitor;
use table::Entry;
use values::Number;

// a number below the range
const BELOW: i64 = -140737488355329;

fn held(z: i64) -> Number {
    Number::Whole(z)
}

// One edit: a letter, a slot, and a number of 48 bits. The table gets another n, an entry that is a constant, or a "not"
// of any operand.
fn edit(m: &mut Monitor, e: &[u8]) {
    let slot = byte(e, 1) as usize;
    let v = number(e, 2, 6);
    let whole = (v % 9223372036854775808) as i64;
    match byte(e, 0) {
        b'l' => m.last = v,
        b'c' => set(&mut m.cells, slot, v),
        b'h' => set(&mut m.held, slot, held(whole)),
        b'b' => set(&mut m.held, slot, held(BELOW)),
        b'n' => m.table.n = v as usize,
        b'k' => set(&mut m.table.entries, slot, Entry::Constant(whole)),
        _ => set(&mut m.table.entries, slot, Entry::Not((v % 65536) as u16)),
    }
}

// Every edit of a list, of eight bytes each. Each program has its own, for reason (d): two lines over edits of its own length.
pub(crate) fn edit_all(m: &mut Monitor, edits: &[u8]) {
    for e in edits.chunks_exact(8) {
        edit(m, e);
    }
}
