// The static library for C and Rust: each export is the function of that name of the crate door, with its clauses.
#![tactic(auto)]

ghost use Rattle.std.specs.Prelude.{◌≡◌};
ghost use Rattle.door.specs.Leaving.{Leaves};
ghost use Rattle.door.specs.Starting.{start_door};
ghost use Rattle.door.specs.Stepping.{step_door, StepLeaves, Held};
ghost use Rattle.door.specs.Alarms.{next_alarm};
ghost use Rattle.door.specs.Labelling.{label_door, labels_door};
ghost use Rattle.door.specs.Reaching.{reach_door};
ghost use Rattle.door.specs.Writing.{write_door, WriteLeaves};

// "a monitor that holds that table and no accepted step yet", in the caller's words.
#[unsafe(no_mangle)]
pub extern "C" fn nimbra_start(script: &[u8], state: &mut [u64]) -> u8
    ensures { Leaves (start_door script.now state.old) result state.new }
{
    door::nimbra_start(script, state)
}

// A step: 29 before all else, then what the bytes say, then the entries in order.
#[unsafe(no_mangle)]
pub extern "C" fn nimbra_step(state: &mut [u64], step: &[u8], results: &mut [u64]) -> u8
    ensures { StepLeaves (step_door state.old step.now results.old) result state.new results.new }
{
    door::nimbra_step(state, step, results)
}

// The same without the test for 29: for words that nimbra_start and the steps alone have written.
#[unsafe(no_mangle)]
pub extern "C" fn nimbra_step_held(state: &mut [u64], step: &[u8], results: &mut [u64]) -> u8
    ensures { Held state.old step.now results.old result state.new results.new }
{
    door::nimbra_step_held(state, step, results)
}

// The first place from `from` on with a raised alarm or a violated property, and the number of slots where there is none.
#[unsafe(no_mangle)]
pub extern "C" fn nimbra_next_alarm(results: &[u64], from: u64) -> u64
    ensures { result ≡ next_alarm results.now from }
{
    door::nimbra_next_alarm(results, from)
}

// Where the text of an entry's label stands: "refused (script numbers, then 30)".
#[unsafe(no_mangle)]
pub extern "C" fn nimbra_label(script: &[u8], entry: u64, place: &mut [u64]) -> u8
    ensures { Leaves (label_door script.now entry place.old) result place.new }
{
    door::nimbra_label(script, entry, place)
}

// Where the block of labels stands, as `nimbra_write` takes it.
#[unsafe(no_mangle)]
pub extern "C" fn nimbra_labels(script: &[u8], place: &mut [u64]) -> u8
    ensures { Leaves (labels_door script.now place.old) result place.new }
{
    door::nimbra_labels(script, place)
}

// The reach of an entry: "29 before all else in ... a reach, 30 last".
#[unsafe(no_mangle)]
pub extern "C" fn nimbra_reach(state: &[u64], entry: u64, marks: &mut [u8]) -> u8
    ensures { Leaves (reach_door state.now entry marks.old) result marks.new }
{
    door::nimbra_reach(state, entry, marks)
}

// The script of the table in words: 29, then what the writer answers.
#[unsafe(no_mangle)]
pub extern "C" fn nimbra_write(state: &[u64], labels: &[u8], out: &mut [u8], size: &mut [u64]) -> u8
    ensures { WriteLeaves (write_door state.now labels.now out.old size.old) result out.new size.new }
{
    door::nimbra_write(state, labels, out, size)
}
