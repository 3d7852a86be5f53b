// An operand judged by what is known of a table: refusals 7, 8 and 13.
ghost use Rattle.std.specs.Prelude.{◌≡◌, get_or};
ghost use Rattle.refusals.specs.Numbering.{unless};
ghost use Rattle.sound.specs.Judged.{apart_judged, judged_by, import_number, placed};

use kinds::{Apart, Operand};
use refusals::Refusal;
use table::Sort;
use values::Number;

// What is known of a table before entry k: its counts, the sorts of the entries before, and which imports are events.
// Sorts are numbers here (a): `judge` and `entries::read`, which docs/ name, answer for any number, and a `Sort` would ask for one of four.
#[derive(Clone, Copy)]
pub struct Known<'a> {
    pub k: usize,
    pub q: usize,
    pub v: usize,
    pub sorts: &'a [u8],
    pub events: &'a [bool],
}

// Accepted if so, else that refusal.
pub(crate) fn unless(so: bool, r: Refusal) -> Result<(), Refusal>
    ensures { result ≡ unless so r }
{
    if so { Ok(()) } else { Err(r) }
}

// "7: operand not an earlier entry ...; 8: operand ... of the wrong sort", 7 before 8, and the same for imports.
fn placed(there: bool, have: u8, s: Sort) -> Result<(), Refusal>
    ensures { result ≡ placed there have s }
{
    unless(there, Refusal::Operand)?;
    unless(have == u8::from(s), Refusal::Sort)
}

impl Known<'_> {
    // The sort of an entry, as a number; past the lent sorts there is none.
    fn sort_of_entry(self, a: usize) -> u8
        ensures { result ≡ get_or self.entry.sorts.now a 0 }
    {
        self.sorts.get(a).copied().unwrap_or(0)
    }

    // The sort of an import, as a number; past the lent imports there are conditions.
    fn sort_of_import(self, i: usize) -> u8
        ensures { result ≡ import_number self.entry.events.now i }
    {
        if i < self.events.len() && self.events[i] {
            u8::from(Sort::Event)
        } else {
            u8::from(Sort::Condition)
        }
    }

    // What is wrong with an operand of entry k.
    pub fn judge(self, o: Operand) -> Result<(), Refusal>
        ensures { result ≡ judged_by self.entry.sorts.now self.entry.events.now self.entry.q self.entry.v self.entry.k o }
    {
        match o {
            Operand::Nothing => Ok(()),
            Operand::Entry(s, a) => placed(
                (a as usize) < self.k,
                self.sort_of_entry(a as usize),
                s,
            ),
            Operand::Imported(s, i) => placed(
                (i as usize) < self.q,
                self.sort_of_import(i as usize),
                s,
            ),
            Operand::Variable(x) => unless((x as usize) < self.v, Refusal::Operand),
            Operand::Constant(z) => unless(Number::Whole(z).in_range(), Refusal::Range),
        }
    }

    // The three operands of entry k, judged in order.
    pub(crate) fn judge_all(self, parts: Apart) -> Result<(), Refusal>
        ensures { result ≡ apart_judged self.entry.sorts.now self.entry.events.now self.entry.q self.entry.v self.entry.k parts }
    {
        self.judge(parts.first)?;
        self.judge(parts.second)?;
        self.judge(parts.third)
    }
}
