// Runs the cases of standard input through the reach of an entry, and prints a line for each.
#![tactic(auto)]

mod editing;
mod showing;

use casebook::{Parts, read_full, split_part};
use std::io;

// The bytes from one on; none where there are not so many.
fn from(s: &[u8], at: usize) -> &[u8] {
    s.get(at..).unwrap_or(&[])
}

// Four bytes of an entry number, 0 where they are not all there.
fn half(s: &[u8]) -> u32 {
    s.first_chunk()
        .map_or(0, |bytes| u32::from_be_bytes(*bytes))
}

// The reach of an entry in the table of a script, after edits: eight bytes of entry number, and the edits.
fn asked(rt: &impl Print, script: &[u8], rest: &[u8]) -> io::Result<()> {
    let edited = editing::edited(reader::read(script).table, from(rest, 8));
    let entry = half(rest) as u64 * 4294967296 + half(from(rest, 4)) as u64;
    showing::say_reach(rt, reacher::of_entry(edited, entry as usize))
}

// A case: its name, a script, and what is asked of it.
fn one(rt: &impl Print, case: &[u8]) -> io::Result<()> {
    let (name, rest) = split_part(case);
    let (script, rest) = split_part(rest);
    rt.write_all(name)?;
    rt.write_all(b": ")?;
    asked(rt, script, rest)?;
    rt.write_all(b"\n")
}

// Each program has its own, for reason (d): a room, a read and a call.
fn main(rt: HostRuntime) -> io::Result<()> {
    let mut space = [0; casebook::ROOM];
    let n = read_full(&mut rt.stdin(), &mut space)?;
    for case in Parts(&space[..n]) {
        one(&rt, case)?;
    }
    Ok(())
}
