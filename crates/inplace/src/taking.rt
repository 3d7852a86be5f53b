// A step: heard, its reports kept, its entries taken.
ghost use Rattle.std.specs.Prelude.{◌≡◌, ◌+◌, ◌<◌, ◌≤◌, ◌^◌, set};
ghost use Rattle.inplace.specs.Reporting.{report_word, Reported};
ghost use Rattle.inplace.specs.Taking.{Advanced, Takes, Took};

use crate::walk::{forget, walk};
use hearing::hear;
use refusals::Refusal;
use table::Table;
use words::WORDS;

// The word of an import's last reported value: this step's report of a condition, else what was reported before.
fn report_word(told: u64, before: u64) -> u64
    ensures { result ≡ report_word told before }
{
    if (0 < told) & (told < 4) {
        told
    } else {
        before
    }
}

// The last reported values of the first q imports, after this step's reports.
fn keep_reports(state: &mut [u64; WORDS], told: &[u64; 64], q: usize)
    requires { q ≤ 48 }
    ensures { Reported told.now q state.old state.new }
{
    for i in 0..q {
        state[388 + i] = report_word(told[i], state[388 + i]);
    }
}

// The time of an accepted step, kept as one more than it.
fn stamp(state: &mut [u64; WORDS], time: u64)
    requires { time < 2 ^ 47 }
    ensures { state.new ≡ set state.old 3 (time + 1) }
{
    state[3] = time + 1;
}

// An accepted step.
fn advance(
    state: &mut [u64; WORDS],
    told: &[u64; 64],
    results: &mut [u64; Table::ENTRIES],
    n: usize,
    q: usize,
    time: u64,
)
    requires { (n ≤ 128) × (q ≤ 48) × (time < 2 ^ 47) }
    ensures { Advanced told.now n q time state.old results.old state.new results.new }
{
    keep_reports(state, told, q);
    stamp(state, time);
    forget(results, n);
    walk(state, told, results, n, time);
}

// A step of words that have the room of a monitor: what the bytes say, then the entries in order.
fn heard(
    state: &mut [u64; WORDS],
    s: &[u8],
    results: &mut [u64; Table::ENTRIES],
    n: usize,
    q: usize,
) -> Result<(), Refusal>
    requires { (n ≤ 128) × (q ≤ 48) }
    ensures { Takes n q s.now result state.old results.old state.new results.new }
{
    let mut told = [0u64; 64];
    let time = hear(q, state[3], &state[324..388], s, &mut told)?;
    let late = 140737488355328 <= time;
    if late {
        return Err(Refusal::Unsound);
    }
    advance(state, &told, results, n, q, time);
    Ok(())
}

// A step taken in place, without the test for 29: on the words of a sound monitor it leaves those of the monitor after the step, and the
// results in the first slots. Words of another size, or with more entries or imports than there are slots, are not touched.
pub fn take(state: &mut [u64], s: &[u8], results: &mut [u64]) -> Result<(), Refusal>
    ensures { Took s.now result state.old results.old state.new results.new }
{
    let state = state.as_mut_array::<WORDS>().ok_or(Refusal::Unsound)?;
    let results = results
        .as_mut_array::<{ Table::ENTRIES }>()
        .ok_or(Refusal::Unsound)?;
    let n = state[0];
    let q = state[1];
    let crowded = 128 < n;
    if crowded {
        return Err(Refusal::Unsound);
    }
    if 48 < q {
        return Err(Refusal::Unsound);
    }
    heard(state, s, results, n as usize, q as usize)
}
