// The entries in script order, each judged on words, in place.
ghost use Rattle.std.specs.Prelude.{◌≡◌, ◌<◌, ◌≤◌, ◌^◌};
ghost use Rattle.inplace.specs.Numbers.{number_taken};
ghost use Rattle.inplace.specs.Turning.{Advances, Walked, forgotten};

use judging::judge;
use table::Table;
use words::WORDS;

// The word of the number in a result; any other result counts as an undefined number.
fn number_taken(y: u64) -> u64
    ensures { result ≡ number_taken y }
{
    if y >> 48 == 1 { y } else { 4 }
}

// Entry k: its result, what it remembers, and the variable that it changes if it is an update that is done.
fn take_entry(
    state: &mut [u64; WORDS],
    told: &[u64; 64],
    results: &mut [u64; Table::ENTRIES],
    k: usize,
    time: u64,
)
    requires { (k < 128) × (time < 2 ^ 47) }
    ensures { Advances told.now time k state.old results.old state.new results.new }
{
    let w = state[4 + k];
    let first = (w / 32 % 128) as usize;
    let second = (w / 4096 % 128) as usize;
    let imported = (w / 16777216 % 64) as usize;
    let variable = (w / 524288 % 32) as usize;
    let y = results[second];
    let judged = judge(
        w,
        results[first],
        y,
        told[imported],
        state[388 + imported],
        state[260 + variable],
        422212465065984 + time,
        time + 1,
        state[132 + k],
    );
    results[k] = judged.outcome;
    state[132 + k] = judged.cell;
    let done = judged.outcome == 8;
    if done {
        state[260 + variable] = number_taken(y);
    }
}

// "Entries are taken in script order within a step."
pub(crate) fn walk(
    state: &mut [u64; WORDS],
    told: &[u64; 64],
    results: &mut [u64; Table::ENTRIES],
    n: usize,
    time: u64,
)
    requires { (n ≤ 128) × (time < 2 ^ 47) }
    ensures { Walked told.now time n state.old results.old state.new results.new }
{
    for k in 0..n {
        take_entry(state, told, results, k, time);
    }
}

// The first result, not yet known: an entry with no operand entry looks there. The others are not looked at before they are known.
pub(crate) fn forget(results: &mut [u64; Table::ENTRIES], n: usize)
    ensures { results.new ≡ forgotten results.old n }
{
    if 0 < n {
        results[0] = 0;
    }
}
