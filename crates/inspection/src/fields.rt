// Numbers that are marked, each with a space before it.
ghost use Rattle.std.specs.Prelude.{[], ◌∷◌};
ghost use Rattle.lines.specs.Laying.{Lays};
ghost use Rattle.inspection.specs.Marks.{marks_text};

// A number with a space before it, if it is marked.
fn put_mark(out: &mut [u8], at: usize, i: usize, marked: bool) -> usize
    ensures { Lays out.old at (marks_text i (marked ∷ [])) out.new result }
{
    if marked {
        return lines::put_number(out, at, i as u64);
    }
    at
}

// Each number that is marked, with a space before it.
pub(crate) fn put_marks(out: &mut [u8], at: usize, marks: &[bool]) -> usize
    ensures { Lays out.old at (marks_text 0 marks.now) out.new result }
{
    let mut next = at;
    for (i, marked) in marks.iter().enumerate() {
        next = put_mark(out, next, i, *marked);
    }
    next
}
