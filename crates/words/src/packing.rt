// A monitor put into a buffer of words, each part at its place.
ghost use Rattle.std.specs.Prelude.{[], ◌∷◌, ◌≡◌, ℕ, ◌+◌, ◌≤◌, length, get_or, slice_index_or};
ghost use Rattle.bits.specs.Window.{stored};
ghost use Rattle.words.specs.Layout.{state_words, state_of};
ghost use Rattle.words.specs.Packing.{packed};

use crate::encoding::{either_word, entry_word, number_word, truth_word};
use monitor::Monitor;

// How many words a monitor takes.
pub const WORDS: usize = 452;

// How many entries, imports and variables there are, and the kept time of the last accepted step.
fn put_counts(n: usize, q: usize, v: usize, last: u64, state: &mut [u64])
    requires { length state.old ≡ state_words }
    ensures { state.new ≡ stored state.old 0 (λ j. get_or (n ∷ q ∷ v ∷ last ∷ []) j 0) 4 }
{
    state[0] = n as u64;
    state[1] = q as u64;
    state[2] = v as u64;
    state[3] = last;
}

// The words of the slots, from place `at` on, where the closure computes f of a slot.
fn put<T: Copy, F: Fn(T) -> u64>(state: &mut [u64], at: usize, slots: &[T], word: F)
    requires room { at + length slots.now ≤ length state.old }
    requires callable { F.IsAlwaysCallable word }
    ensures { (f : T → ℕ) (d : T) → ((x : T) (r : ℕ) → F.post word x r → r ≡ f x) → state.new ≡ stored state.old at (λ k. f (slice_index_or slots.now k d)) (length slots.now) }
{
    for (k, slot) in slots.iter().enumerate() {
        state[at + k] = word(*slot);
    }
}

// The parts of a monitor, each where the last one ended: the counts, the entries, what they remember and what the variables hold and start with,
// then the imports' sorts and last reported values, with 16 words after each that have no use.
fn put_parts(m: &Monitor, state: &mut [u64])
    requires { length state.old ≡ state_words }
    ensures { state.new ≡ state_of m.now }
{
    let t = &m.table;
    put_counts(t.n, t.q, t.v, m.last, state);
    put(state, 4, &t.entries, |slot| entry_word(slot));
    put(state, 132, &m.cells, |cell| cell);
    put(state, 260, &m.held, |slot| number_word(slot));
    put(state, 292, &t.variables, |slot| number_word(slot));
    put(state, 324, &t.events, |event| either_word(event, 1, 0));
    put(state, 372, &[0; 16], |word| word);
    put(state, 388, &m.reported, |slot| truth_word(slot));
    put(state, 436, &[1; 16], |word| word);
}

// A monitor as words, in a buffer of 452; one of another size is not touched.
pub fn pack(m: Monitor, state: &mut [u64])
    ensures { state.new ≡ packed m state.old }
{
    if state.len() == WORDS {
        put_parts(&m, state);
    }
}
