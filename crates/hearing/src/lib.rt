// A step heard into words: what it tells of each import, as words of 64 bits in a buffer that the caller lends.
#![tactic(auto)]

mod reading;
mod telling;

pub use reading::hear;

// What a report tells, as a word.
#[derive(Clone, Copy)]
struct Word {
    word: u64,
}
