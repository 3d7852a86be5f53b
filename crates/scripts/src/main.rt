// Runs the cases of standard input through the reader, the labels and the writer, and prints a line for each.
#![tactic(auto)]

mod editing;
mod reading;
mod showing;
mod writing;

use casebook::{Parts, byte, read_full, split_part};
use std::io;

// A case: a letter for what is asked, the name of the case, the script, and what the letter asks for besides.
fn one(rt: &impl Print, case: &[u8]) -> io::Result<()> {
    let (name, rest) = split_part(case.get(1..).unwrap_or(&[]));
    let (script, rest) = split_part(rest);
    rt.write_all(name)?;
    rt.write_all(b": ")?;
    match byte(case, 0) {
        b'R' => reading::read(rt, script)?,
        b'L' => reading::label(rt, script, rest)?,
        b'W' => writing::write(rt, script, rest)?,
        _ => rt.write_all(b"no such case")?,
    }
    rt.write_all(b"\n")
}

// Each program has its own, for reason (d): a room, a read and a call.
fn main(rt: HostRuntime) -> io::Result<()> {
    let mut space = [0; casebook::ROOM];
    let n = read_full(&mut rt.stdin(), &mut space)?;
    for case in Parts(&space[..n]) {
        one(&rt, case)?;
    }
    Ok(())
}
