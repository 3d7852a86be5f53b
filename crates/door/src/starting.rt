// A script read, and a fresh monitor of its table put into words.
ghost use Rattle.door.specs.Leaving.{Leaves};
ghost use Rattle.door.specs.Starting.{start_door};

use crate::WRONG_SIZE;
use words::WORDS;

// "a monitor that holds that table and no accepted step yet", in the caller's words.
pub fn nimbra_start(script: &[u8], state: &mut [u64]) -> u8
    ensures { Leaves (start_door script.now state.old) result state.new }
{
    let wrong_words = state.len() != WORDS;
    if wrong_words {
        return WRONG_SIZE;
    }
    let read = reader::read(script);
    match read.answer {
        Err(r) => u8::from(r),
        Ok(()) => {
            words::pack(monitor::start(read.table).monitor, state);
            0
        }
    }
}
