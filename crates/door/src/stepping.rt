// A step of a monitor in words, taken in place.
ghost use Rattle.std.specs.Prelude.{◌≡◌, length};
ghost use Rattle.door.specs.Stepping.{step_door, StepLeaves, StepsOn, Held};

use crate::WRONG_SIZE;
use words::WORDS;

// A step over 128 slots, which hold "no result" before it: on the words of a sound monitor, the reply, the words and the results of that monitor's step.
fn step_on(state: &mut [u64], step: &[u8], results: &mut [u64]) -> u8
    requires { length results.old ≡ 128 }
    ensures { StepsOn step.now result state.old state.new results.new }
{
    results.fill(0);
    parts::outcome(inplace::take(state, step, results))
}

// A step: 29 before all else, then what the bytes say, then the entries in order.
pub fn nimbra_step(state: &mut [u64], step: &[u8], results: &mut [u64]) -> u8
    ensures { StepLeaves (step_door state.old step.now results.old) result state.new results.new }
{
    if state.len() != WORDS {
        return WRONG_SIZE;
    }
    if results.len() != 128 {
        return WRONG_SIZE;
    }
    match words::state_fault(state) {
        Err(r) => u8::from(r),
        Ok(()) => step_on(state, step, results),
    }
}

// The same without the test for 29: for words that nimbra_start and the steps alone have written.
pub fn nimbra_step_held(state: &mut [u64], step: &[u8], results: &mut [u64]) -> u8
    ensures { Held state.old step.now results.old result state.new results.new }
{
    if state.len() != WORDS {
        return WRONG_SIZE;
    }
    if results.len() != 128 {
        return WRONG_SIZE;
    }
    step_on(state, step, results)
}
