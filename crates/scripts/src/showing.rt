// Tables and bytes as text.
use std::io;
use table::Table;

fn imports(rt: &impl Print, t: Table) -> io::Result<()> {
    rt.write_all(b" | imports")?;
    for event in t.events.iter().take(t.q) {
        let sort = if *event { " event" } else { " condition" };
        rt.write_all(sort.as_bytes())?;
    }
    Ok(())
}

fn variables(rt: &impl Print, t: Table) -> io::Result<()> {
    rt.write_all(b" | variables")?;
    for slot in t.variables.iter().take(t.v) {
        print!(rt; " {}", slot)?;
    }
    Ok(())
}

fn entries(rt: &impl Print, t: Table) -> io::Result<()> {
    rt.write_all(b" | entries")?;
    for slot in t.entries.iter().take(t.n) {
        print!(rt; " {};", slot)?;
    }
    Ok(())
}

// Counts, imports, variables and entries.
pub(crate) fn say_table(rt: &impl Print, t: Table) -> io::Result<()> {
    print!(rt; "{} {} {}", t.n, t.q, t.v)?;
    imports(rt, t)?;
    variables(rt, t)?;
    entries(rt, t)
}

pub(crate) fn say_bytes(rt: &impl Print, s: &[u8]) -> io::Result<()> {
    for b in s {
        print!(rt; " {b:02x}")?;
    }
    Ok(())
}
