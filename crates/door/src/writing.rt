// The table in words and a block of labels, written as a script again.
ghost use Rattle.std.specs.Prelude.{◌≡◌, length};
ghost use Rattle.door.specs.Leaving.{Leaves};
ghost use Rattle.door.specs.Writing.{size_left, write_door, WriteLeaves};

use crate::WRONG_SIZE;
use script::Written;
use words::WORDS;

// How many bytes were written; or the refusal's number.
fn show_size(written: Written, size: &mut [u64]) -> u8
    requires { length size.old ≡ 1 }
    ensures { Leaves (size_left written.answer written.size size.old) result size.new }
{
    match written.answer {
        Err(r) => u8::from(r),
        Ok(()) => {
            size[0] = written.size as u64;
            0
        }
    }
}

// The script of the table in words: 29, then what the writer answers.
pub fn nimbra_write(state: &[u64], labels: &[u8], out: &mut [u8], size: &mut [u64]) -> u8
    ensures { WriteLeaves (write_door state.now labels.now out.old size.old) result out.new size.new }
{
    if state.len() != WORDS {
        return WRONG_SIZE;
    }
    let wrong_size = size.len() != 1;
    if wrong_size {
        return WRONG_SIZE;
    }
    match words::state_fault(state) {
        Err(r) => u8::from(r),
        Ok(()) => {
            let table = words::monitor_in(state).table;
            show_size(writer::write(table, labels, out), size)
        }
    }
}
