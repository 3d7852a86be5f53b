// Whether words are those of a sound monitor.
ghost use Rattle.std.specs.Prelude.{◌≡◌};
ghost use Rattle.words.specs.Unpacking.{state_fault};

use crate::{WORDS, monitor_in, pack};
use monitor::unsound;
use refusals::Refusal;

// 29 where the words are not 452, are not those of a monitor, or are those of one that is at fault.
pub fn state_fault(state: &[u64]) -> Result<(), Refusal>
    ensures { result ≡ state_fault state.now }
{
    let wrong_size = state.len() != WORDS;
    if wrong_size {
        return Err(Refusal::Unsound);
    }
    let m = monitor_in(state);
    let mut again: [u64; WORDS] = [0; WORDS];
    pack(m, &mut again);
    let front = &state[..WORDS];
    let same = front == &again[..];
    if same {
        unsound(m)
    } else {
        Err(Refusal::Unsound)
    }
}
