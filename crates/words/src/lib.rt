// A monitor as words of 64 bits, in a buffer of fixed size that the caller lends.
#![tactic(auto)]

mod checking;
mod encoding;
mod packing;
mod unpacking;

pub use checking::state_fault;
pub use encoding::{number_word, outcome_word, truth_word};
pub use packing::{WORDS, pack};
pub use unpacking::monitor_in;
