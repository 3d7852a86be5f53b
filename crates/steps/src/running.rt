// A script read and a monitor started on its table; steps taken by a monitor.
use crate::showing::{say_nothings, say_results};
use monitor::{Monitor, Stepped};
use refusals::Refusal;
use std::io;
use table::Table;

fn say_refused(rt: &impl Print, refusal: Refusal) -> io::Result<()> {
    print!(rt; "refused {}", u8::from(refusal))
}

// The time of the last accepted step, which is kept as one more.
fn say_last(rt: &impl Print, last: u64) -> io::Result<()> {
    match last.checked_sub(1) {
        None => rt.write_all(b", last none"),
        Some(time) => print!(rt; ", last {time}"),
    }
}

// Whether a monitor holds a table.
fn say_table(rt: &impl Print, m: Monitor, t: Table, same: &str) -> io::Result<()> {
    let table = if m.table == t { same } else { "another table" };
    rt.write_all(table.as_bytes())
}

// "A start on a table at fault gives 29 and the monitor of the empty table"
fn start(rt: &impl Print, t: Table) -> io::Result<Monitor> {
    let started = monitor::start(t);
    let m = started.monitor;
    match started.answer {
        Ok(()) => {
            rt.write_all(b"start accepted, ")?;
            say_table(rt, m, t, "same table")?;
        }
        Err(refusal) => {
            rt.write_all(b"start ")?;
            say_refused(rt, refusal)?;
            rt.write_all(b", ")?;
            say_table(rt, m, Table::empty(), "empty table")?;
        }
    }
    say_last(rt, m.last)?;
    Ok(m)
}

// A refused script stands for the empty table.
pub(crate) fn read(rt: &impl Print, s: &[u8]) -> io::Result<Monitor> {
    let script = reader::read(s);
    rt.write_all(b"script ")?;
    match script.answer {
        Ok(()) => rt.print(script.table.n)?,
        Err(refusal) => say_refused(rt, refusal)?,
    }
    rt.write_all(b", ")?;
    start(rt, script.table)
}

// A start on the table of a monitor.
pub(crate) fn again(rt: &impl Print, m: Monitor) -> io::Result<Monitor> {
    start(rt, m.table)
}

// "an accepted step's monitor holds the same table and that step's time as the last"
fn say_accepted(rt: &impl Print, m: Monitor, r: Stepped) -> io::Result<()> {
    rt.write_all(b"accepted, ")?;
    say_table(rt, r.monitor, m.table, "same table")?;
    say_last(rt, r.monitor.last)?;
    rt.write_all(b" |")?;
    say_results(rt, r, m.table.n)?;
    say_nothings(rt, r, m.table.n)
}

// "A refused step returns the monitor unchanged and 128 times 'no result'."
fn say_unchanged(rt: &impl Print, m: Monitor, r: Stepped) -> io::Result<()> {
    let sameness = if r.monitor == m {
        ", same monitor"
    } else {
        ", another monitor"
    };
    rt.write_all(sameness.as_bytes())?;
    say_last(rt, r.monitor.last)?;
    say_nothings(rt, r, 0)
}

pub(crate) fn step(rt: &impl Print, m: Monitor, s: &[u8]) -> io::Result<Monitor> {
    let r = monitor::step(m, s);
    match r.answer {
        Ok(()) => say_accepted(rt, m, r)?,
        Err(refusal) => {
            say_refused(rt, refusal)?;
            say_unchanged(rt, m, r)?;
        }
    }
    Ok(r.monitor)
}

// A step whose monitor is not taken over.
pub(crate) fn tried(rt: &impl Print, m: Monitor, s: &[u8]) -> io::Result<Monitor> {
    step(rt, m, s)?;
    Ok(m)
}
