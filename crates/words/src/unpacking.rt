// Words back to a monitor, and whether they are those of a sound one.
ghost use Rattle.std.specs.Prelude.{◌≡◌, ℕ, ◌+◌, ◌/◌, ◌^◌, ◌≤◌};
ghost use Rattle.bits.specs.Bits.{list_to};
ghost use Rattle.words.specs.Layout.{state_words};
ghost use Rattle.words.specs.Unpacking.{whole_of_word, number_of_word, truth_of_word, constant_of_word, of_import, first_of_word, second_of_word, entry_of_word, word_in, monitor_in};

use kinds::made;
use monitor::Monitor;
use std::array;
use table::{Entry, Table};
use values::{Number, Truth};

// The word at a place; past the end it is 0.
fn word(state: &[u64], at: usize) -> u64
    ensures { result ≡ word_in state.now at }
{
    if at < state.len() { state[at] } else { 0 }
}

// The whole number that is as far from 0 as the word is from the word of 0.
fn whole_of(word: u64) -> i64
    requires { word / 2 ^ 48 ≡ 1 }
    ensures { result ≡ whole_of_word word }
{
    word as i64 - 422212465065984
}

// The number of a word: whole from 2^48 up to 2^49, and else undefined.
fn number_of(word: u64) -> Number
    ensures { result ≡ number_of_word word }
{
    if word / 281474976710656 == 1 {
        return Number::Whole(whole_of(word));
    }
    Number::Undefined
}

// The truth of a word.
fn truth_of(word: u64) -> Truth
    ensures { result ≡ truth_of_word word }
{
    match word {
        3 => Truth::True,
        2 => Truth::False,
        _ => Truth::Undefined,
    }
}

// The whole number in a constant's word, 0 where it holds none.
fn constant_of(word: u64) -> i64
    ensures { result ≡ constant_of_word word }
{
    if word / 281474976710656 == 1 {
        return whole_of(word);
    }
    0
}

// Kinds 0, 9 and 20 have an import for an operand.
fn of_import(kind: u64) -> bool
    ensures { result ≡ of_import kind }
{
    kind == 0 || kind == 9 || kind == 20
}

// The number of an entry's first operand: an import, a variable or an entry.
fn first_of(word: u64) -> u16
    ensures { result ≡ first_of_word word }
{
    if of_import(word % 32) {
        return (word / 16777216 % 64) as u16;
    }
    if word % 32 == 16 {
        return (word / 524288 % 32) as u16;
    }
    (word / 32 % 128) as u16
}

// The number of the second: an update has a variable there.
fn second_of(word: u64) -> u16
    ensures { result ≡ second_of_word word }
{
    if word % 32 == 22 {
        return (word / 524288 % 32) as u16;
    }
    (word / 4096 % 128) as u16
}

// The entry of a word: its kind, and the numbers of its operands.
fn entry_of(word: u64) -> Entry
    ensures { result ≡ entry_of_word word }
{
    made(
        (word % 32) as usize,
        first_of(word),
        second_of(word),
        (word / 4096 % 128) as u16,
        constant_of(word / 32),
    )
}

// An array of what the words from place `from` on stand for, where the closure computes f of a word.
fn slots_in<T, const N: usize, F: Fn(u64) -> T>(state: &[u64], from: usize, of_word: F) -> [T; N]
    requires room { from + N ≤ state_words }
    requires callable { F.IsAlwaysCallable of_word }
    ensures { (f : ℕ → T) → ((w : ℕ) (r : T) → F.post of_word w r → r ≡ f w) → result ≡ list_to N (λ k. f (word_in state.now (from + k))) }
{
    array::from_fn(|k| of_word(word(state, from + k)))
}

// The monitor that stands in words, whatever they are.
pub fn monitor_in(state: &[u64]) -> Monitor
    ensures { result ≡ monitor_in state.now }
{
    let number = |word| number_of(word);
    Monitor {
        table: Table {
            n: word(state, 0) as usize,
            q: word(state, 1) as usize,
            v: word(state, 2) as usize,
            events: slots_in(state, 324, |word| word == 1),
            variables: slots_in(state, 292, number),
            entries: slots_in(state, 4, |word| entry_of(word)),
        },
        last: word(state, 3),
        reported: slots_in(state, 388, |word| truth_of(word)),
        held: slots_in(state, 260, number),
        cells: slots_in(state, 132, |word| word),
    }
}
