// A table packed: every field put in its place, one after another.
ghost use Rattle.std.specs.Prelude.{[], ◌∷◌, ◌+◌, ◌*◌, ◌≤◌};
ghost use Rattle.bits.specs.Packing.{padded};
ghost use Rattle.script.specs.Writer.{part, header_parts, number_parts, entry_parts, table_parts};
ghost use Rattle.table.specs.Sound.{Within};
ghost use Rattle.writer.specs.Parts.{operand_parts, imports_parts, variables_parts, entries_parts};
ghost use Rattle.writer.specs.Puts.{Puts};

use kinds::Operand;
use table::{Entry, Table};
use values::Number;

// One field; the bit after it.
fn put_field(dst: &mut [u8], at: usize, w: usize, v: u64) -> usize
    requires { (at ≤ 65536) × (w ≤ 48) }
    ensures { Puts dst.old at (part w v ∷ []) dst.new result }
{
    bits::put(dst, at, w, v);
    at + w
}

// An operand's field, if there is one.
fn put_operand(dst: &mut [u8], at: usize, o: Operand) -> usize
    requires { at ≤ 65536 }
    ensures put { Puts dst.old at (operand_parts o) dst.new result }
    ensures near { result ≤ at + 48 }
{
    let w = o.width();
    if w == 0 {
        return at;
    }
    put_field(dst, at, w, o.number())
}

// "5 bits of kind, then operands"
fn put_entry(dst: &mut [u8], at: usize, e: Entry) -> usize
    requires { at ≤ 32768 }
    ensures { Puts dst.old at (entry_parts e) dst.new result }
{
    let apart = kinds::apart_of(e);
    let one = put_field(dst, at, 5, apart.kind as u64);
    let two = put_operand(dst, one, apart.first);
    let three = put_operand(dst, two, apart.second);
    put_operand(dst, three, apart.third)
}

// "Format number ... Entry count n ... Import count q ... Variable count v ... Four zero bits."
fn put_header(dst: &mut [u8], t: Table) -> usize
    ensures { Puts dst.old 0 (header_parts t) dst.new result }
{
    let at = put_field(dst, 0, 8, 1);
    let at = put_field(dst, at, 8, t.n as u64);
    let at = put_field(dst, at, 6, t.q as u64);
    let at = put_field(dst, at, 6, t.v as u64);
    put_field(dst, at, 4, 0)
}

// Three loops, not one with a closure that is lent `dst` and calls the field's own function: `for k in 0..t.n { at = put_entry(dst, at, t.entries[k]); }` is no longer.
// "q bits, one for each import: 1 an event, 0 a condition."
fn put_imports(dst: &mut [u8], from: usize, t: Table) -> usize
    requires { (from ≤ 4096) × (t.q ≤ 48) }
    ensures { Puts dst.old from (imports_parts t t.q) dst.new result }
{
    let mut at = from;
    for i in 0..t.q {
        at = put_field(dst, at, 1, t.events[i] as u64);
    }
    at
}

// "1 bit (1 = starts defined), then 48 bits, two's complement; all zero where it starts undefined"
fn put_number(dst: &mut [u8], at: usize, y: Number) -> usize
    requires { at ≤ 32768 }
    ensures { Puts dst.old at (number_parts y) dst.new result }
{
    match y {
        Number::Undefined => {
            let next = put_field(dst, at, 1, 0);
            put_field(dst, next, 48, 0)
        }
        Number::Whole(z) => {
            let next = put_field(dst, at, 1, 1);
            put_field(dst, next, 48, bits::unsigned(z))
        }
    }
}

// "For each variable"
fn put_variables(dst: &mut [u8], from: usize, t: Table) -> usize
    requires { (from ≤ 4096) × (t.v ≤ 32) }
    ensures { Puts dst.old from (variables_parts t t.v) dst.new result }
{
    let mut at = from;
    for x in 0..t.v {
        at = put_number(dst, at, t.variables[x]);
    }
    at
}

// "n entries"; of the shape of the two before, for reason (d): a loop of one call each, and one that takes a closure would need its contract.
fn put_entries(dst: &mut [u8], from: usize, t: Table) -> usize
    requires { (from ≤ 4096) × (t.n ≤ 128) }
    ensures { Puts dst.old from (entries_parts t t.n) dst.new result }
{
    let mut at = from;
    for k in 0..t.n {
        at = put_entry(dst, at, t.entries[k]);
    }
    at
}

// Every field of the table, and zero bits up to a whole byte; how many bytes they take.
pub(crate) fn pack(dst: &mut [u8], t: Table) -> usize
    requires { Within t }
    ensures { Puts dst.old 0 (padded (table_parts t)) dst.new (8 * result) }
{
    let at = put_header(dst, t);
    let at = put_imports(dst, at, t);
    let at = put_variables(dst, at, t);
    let at = put_entries(dst, at, t);
    let end = put_field(dst, at, (8 - at % 8) % 8, 0);
    end / 8
}
