// The reach of an entry of the table in words, laid down as bytes that are 0 or 1.
ghost use Rattle.std.specs.Prelude.{false, ◌≡◌, ◌+◌, ◌≤◌, length, get_or};
ghost use Rattle.bits.specs.Window.{stored};
ghost use Rattle.door.specs.Leaving.{Leaves};
ghost use Rattle.door.specs.Reaching.{mark_byte, mark_bytes, Slotted, marks_left, reach_door};

use crate::WRONG_SIZE;
use reach::Reach;
use words::WORDS;

// Marks, from byte `at` on.
fn put_marks(marks: &[bool], at: usize, out: &mut [u8])
    requires { at + length marks.now ≤ length out.old }
    ensures { out.new ≡ stored out.old at (λ k. mark_byte (get_or marks.now k false)) (length marks.now) }
{
    for (k, marked) in marks.iter().enumerate() {
        out[at + k] = *marked as u8;
    }
}

// The marks of the entries, then those of the imports, then the clock's.
fn put_reach(found: Reach, out: &mut [u8])
    requires { (length out.old ≡ 177) × Slotted found }
    ensures { out.new ≡ mark_bytes found }
{
    put_marks(&found.entries, 0, out);
    put_marks(&found.imports, 128, out);
    out[176] = found.clock as u8;
}

// A reach that was found; or the refusal's number, and no mark.
fn show_reach(found: Reach, marks: &mut [u8]) -> u8
    requires { (length marks.old ≡ 177) × Slotted found }
    ensures { Leaves (marks_left found.answer found marks.old) result marks.new }
{
    match found.answer {
        Err(r) => u8::from(r),
        Ok(()) => {
            put_reach(found, marks);
            0
        }
    }
}

// The reach of an entry: "29 before all else in ... a reach, 30 last".
pub fn nimbra_reach(state: &[u64], entry: u64, marks: &mut [u8]) -> u8
    ensures { Leaves (reach_door state.now entry marks.old) result marks.new }
{
    if state.len() != WORDS {
        return WRONG_SIZE;
    }
    let wrong_marks = marks.len() != 177;
    if wrong_marks {
        return WRONG_SIZE;
    }
    match words::state_fault(state) {
        Err(r) => u8::from(r),
        Ok(()) => {
            let table = words::monitor_in(state).table;
            show_reach(reacher::of_entry(table, entry as usize), marks)
        }
    }
}
