// Cases of writing: a table and a block of labels, written into a destination whose every byte is 0xAA.
use crate::editing::edited;
use crate::reading::say_refused;
use crate::showing::say_bytes;
use casebook::{split_part, word};
use std::io;
use table::Table;

// The longest destination.
pub(crate) const ROOM: usize = 4352;

// Whether every byte from one on is still 0xAA.
pub(crate) fn rest_untouched(d: &[u8], from: usize) -> bool {
    d.iter().skip(from).all(|b| *b == 0xAA)
}

// A number in which every byte and its place count.
fn sum(s: &[u8]) -> u64 {
    let mut total: u64 = 0;
    for b in s {
        total = (total * 31 + *b as u64) % 4294967296;
    }
    total
}

// All bytes, or the sum of many.
fn say_destination(rt: &impl Print, d: &[u8]) -> io::Result<()> {
    if d.len() <= 256 {
        rt.write_all(b":")?;
        say_bytes(rt, d)
    } else {
        print!(rt; ", sum {}", sum(d))
    }
}

fn into(rt: &impl Print, t: Table, block: &[u8], dst: &mut [u8]) -> io::Result<()> {
    let written = writer::write(t, block, dst);
    let size = written.size;
    match written.answer {
        Ok(()) => rt.write_all(b"written")?,
        Err(refusal) => say_refused(rt, u8::from(refusal))?,
    }
    print!(rt; ", size {size}")?;
    let rest = if rest_untouched(dst, size) {
        ", rest untouched"
    } else {
        ", rest changed"
    };
    rt.write_all(rest.as_bytes())?;
    say_destination(rt, dst)
}

// The table of a script with edits, a block and the length of the destination. A refused script stands for the empty table.
pub(crate) fn write(rt: &impl Print, s: &[u8], rest: &[u8]) -> io::Result<()> {
    let (edits, rest) = split_part(rest);
    let (block, rest) = split_part(rest);
    let length = word(rest, 0) as usize;
    let t = edited(reader::read(s).table, edits);
    let mut space: [u8; ROOM] = [0xAA; ROOM];
    if length <= ROOM {
        into(rt, t, block, &mut space[0..length])
    } else {
        rt.write_all(b"no such destination")
    }
}
