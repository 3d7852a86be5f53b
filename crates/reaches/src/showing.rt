// A reach as text.
use reach::Reach;
use refusals::Refusal;
use std::io;

// The numbers of the marks that are set, in every slot.
fn say_marks(rt: &impl Print, marks: &[bool]) -> io::Result<()> {
    for (i, marked) in marks.iter().enumerate() {
        if *marked {
            print!(rt; " {i}")?;
        }
    }
    Ok(())
}

// Whether a mark is set in any slot.
fn marked(marks: &[bool]) -> bool {
    marks.contains(&true)
}

// "A reach shows all three: its entries, its imports and whether it has the clock."
fn say_reached(rt: &impl Print, r: Reach) -> io::Result<()> {
    rt.write_all(b"reached | entries")?;
    say_marks(rt, &r.entries)?;
    rt.write_all(b" | imports")?;
    say_marks(rt, &r.imports)?;
    let clock = if r.clock {
        " | clock yes"
    } else {
        " | clock no"
    };
    rt.write_all(clock.as_bytes())
}

// "A refused reach returns no marks."
fn say_refused(rt: &impl Print, r: Reach, refusal: Refusal) -> io::Result<()> {
    print!(rt; "refused {}", u8::from(refusal))?;
    let marks = if marked(&r.entries) || marked(&r.imports) || r.clock {
        ", marks"
    } else {
        ", no marks"
    };
    rt.write_all(marks.as_bytes())
}

pub(crate) fn say_reach(rt: &impl Print, r: Reach) -> io::Result<()> {
    match r.answer {
        Ok(()) => say_reached(rt, r),
        Err(refusal) => say_refused(rt, r, refusal),
    }
}
