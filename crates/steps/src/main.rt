// Runs the cases of standard input through the reader, the start and the step, and prints a line for each.
#![tactic(auto)]

mod editing;
mod running;
mod showing;

use casebook::{Parts, byte, read_full, split_part};
use monitor::Monitor;
use std::io;
use table::Table;

// The monitor after what the letter asks for: a script read, a start again, a step, a step that is only tried, or edits.
fn asked(rt: &impl Print, what: u8, m: &mut Monitor, rest: &[u8]) -> io::Result<()> {
    match what {
        b'R' => *m = running::read(rt, rest)?,
        b'A' => *m = running::again(rt, *m)?,
        b'S' => *m = running::step(rt, *m, rest)?,
        b'T' => *m = running::tried(rt, *m, rest)?,
        _ => {
            rt.write_all(b"edited")?;
            editing::edit_all(m, rest);
        }
    }
    Ok(())
}

// A case: a letter for what is asked, the name of the case, and the bytes that the letter asks for.
fn one(rt: &impl Print, m: &mut Monitor, case: &[u8]) -> io::Result<()> {
    let (name, rest) = split_part(case.get(1..).unwrap_or(&[]));
    rt.write_all(name)?;
    rt.write_all(b": ")?;
    asked(rt, byte(case, 0), m, rest)?;
    rt.write_all(b"\n")
}

// Each case begins with the monitor that the case before it left.
fn all(rt: &impl Print, cases: &[u8]) -> io::Result<()> {
    let mut m = monitor::start(Table::empty()).monitor;
    for case in Parts(cases) {
        one(rt, &mut m, case)?;
    }
    Ok(())
}

fn main(rt: HostRuntime) -> io::Result<()> {
    let mut space = [0; casebook::ROOM];
    let n = read_full(&mut rt.stdin(), &mut space)?;
    all(&rt, &space[..n])
}
