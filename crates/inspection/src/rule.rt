// The four lines of a rule: its name, its entries, its imports, and whether it has the clock.
ghost use Rattle.std.specs.Prelude.{[], ◌∷◌, map};
ghost use Rattle.lines.specs.Laying.{Lays};
ghost use Rattle.lines.specs.Text.{decimal, line};
ghost use Rattle.inspection.specs.Inspected.{clock_word, yes_or_no, marked_from, rule_word, rule_lines};
ghost use Rattle.inspection.specs.Rules.{reach_lines};

use crate::fields::put_marks;
use reach::Reach;
use table::Entry;

// An entry's number, a word and a text.
fn text_line(out: &mut [u8], at: usize, k: usize, word: &[u8], text: &[u8]) -> usize
    ensures { Lays out.old at (line (decimal k ∷ word.now ∷ text.now ∷ [])) out.new result }
{
    let at = lines::put_decimal(out, at, k as u64);
    let at = lines::put_word(out, at, word);
    let at = lines::put_word(out, at, text);
    lines::put_byte(out, at, b'\n')
}

// An entry's number, a word, and the numbers that are marked.
fn marks_line(out: &mut [u8], at: usize, k: usize, word: &[u8], marks: &[bool]) -> usize
    ensures { Lays out.old at (line (decimal k ∷ word.now ∷ map decimal (marked_from 0 marks.now))) out.new result }
{
    let at = lines::put_decimal(out, at, k as u64);
    let at = lines::put_word(out, at, word);
    let at = put_marks(out, at, marks);
    lines::put_byte(out, at, b'\n')
}

// "alarm" or "property", and the label.
fn name_line(out: &mut [u8], at: usize, k: usize, e: Entry, label: &[u8]) -> usize
    ensures { Lays out.old at (line (decimal k ∷ rule_word e ∷ label.now ∷ [])) out.new result }
{
    let kind = kinds::apart_of(e).kind;
    if kind == 23 {
        return text_line(out, at, k, b"alarm", label);
    }
    text_line(out, at, k, b"property", label)
}

// Whether it has the clock.
fn clock_line(out: &mut [u8], at: usize, k: usize, clock: bool) -> usize
    ensures { Lays out.old at (line (decimal k ∷ clock_word ∷ yes_or_no clock ∷ [])) out.new result }
{
    if clock {
        return text_line(out, at, k, b"clock", b"yes");
    }
    text_line(out, at, k, b"clock", b"no")
}

// What it reaches: its entries, its imports, and whether it has the clock.
fn reach_lines(out: &mut [u8], at: usize, k: usize, reach: Reach) -> usize
    ensures { Lays out.old at (reach_lines k reach) out.new result }
{
    let at = marks_line(out, at, k, b"entries", &reach.entries);
    let at = marks_line(out, at, k, b"imports", &reach.imports);
    clock_line(out, at, k, reach.clock)
}

// The four lines of entry k of a script. `parts` lends the number of a refusal, for the reason that stands there.
pub(crate) fn rule_lines(
    s: &[u8],
    k: usize,
    e: Entry,
    reach: Reach,
    out: &mut [u8],
    at: usize,
) -> usize
    ensures { Lays out.old at (rule_lines s.now k e reach) out.new result }
{
    let mut number: u8 = 0;
    let label = parts::label(s, k, &mut number);
    let at = name_line(out, at, k, e, label);
    reach_lines(out, at, k, reach)
}
