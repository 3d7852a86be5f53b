// Cases of reading: the table of a script, and the label of one of its entries.
use crate::showing::say_table;
use crate::writing::{ROOM, rest_untouched};
use refusals::Refusal;
use std::io;
use table::Table;

// A refusal by its number: that is what `parts::label` and `block` lend, here and below, for the reason that stands there.
pub(crate) fn say_refused(rt: &impl Print, number: u8) -> io::Result<()> {
    print!(rt; "refused {number}")
}

// "A refused script returns the empty table (counts 0, all slots unused)."
fn say_emptiness(rt: &impl Print, t: Table) -> io::Result<()> {
    let emptiness = if t == Table::empty() {
        ", table empty"
    } else {
        ", table not empty"
    };
    rt.write_all(emptiness.as_bytes())
}

// The block of a refused script: its number, and an empty part.
fn say_no_block(rt: &impl Print, s: &[u8], refusal: Refusal) -> io::Result<()> {
    let mut number: u8 = 0;
    let block = parts::block(s, &mut number);
    let shown = if number == u8::from(refusal) && block.is_empty() {
        ", no block"
    } else {
        ", a block"
    };
    rt.write_all(shown.as_bytes())
}

// The label of an entry, if it has one.
fn say_label(rt: &impl Print, s: &[u8], k: usize) -> io::Result<()> {
    let mut number: u8 = 0;
    let text = parts::label(s, k, &mut number);
    if number == 0 {
        print!(rt; " {k}:")?;
        rt.write_all(text)?;
    }
    Ok(())
}

fn say_labels(rt: &impl Print, s: &[u8], n: usize) -> io::Result<()> {
    rt.write_all(b" | labels")?;
    for k in 0..n {
        say_label(rt, s, k)?;
    }
    Ok(())
}

// Whether the table and the block, written again, are the script's own bytes, and no more.
fn same(s: &[u8], t: Table, block: &[u8], dst: &mut [u8]) -> bool {
    let written = writer::write(t, block, dst);
    written.size == s.len() && dst.starts_with(s) && rest_untouched(dst, s.len())
}

fn say_same(rt: &impl Print, s: &[u8], t: Table) -> io::Result<()> {
    let mut number: u8 = 0;
    let block = parts::block(s, &mut number);
    let mut space: [u8; ROOM] = [0xAA; ROOM];
    let sameness = if same(s, t, block, &mut space) {
        " | same"
    } else {
        " | differs"
    };
    rt.write_all(sameness.as_bytes())
}

pub(crate) fn read(rt: &impl Print, s: &[u8]) -> io::Result<()> {
    let script = reader::read(s);
    match script.answer {
        Ok(()) => {
            say_table(rt, script.table)?;
            say_labels(rt, s, script.table.n)?;
            say_same(rt, s, script.table)
        }
        Err(refusal) => {
            say_refused(rt, u8::from(refusal))?;
            say_emptiness(rt, script.table)?;
            say_no_block(rt, s, refusal)
        }
    }
}

pub(crate) fn label(rt: &impl Print, s: &[u8], rest: &[u8]) -> io::Result<()> {
    let k = casebook::number(rest, 0, 8) as usize;
    let mut number: u8 = 0;
    let text = parts::label(s, k, &mut number);
    if number != 0 {
        say_refused(rt, number)?;
    } else {
        rt.write_all(b"label")?;
    }
    print!(rt; ", {} bytes [", text.len())?;
    rt.write_all(text)?;
    rt.write_all(b"]")
}
