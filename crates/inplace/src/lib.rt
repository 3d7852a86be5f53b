// A step taken in place: a monitor as words, in a buffer that the caller lends.
#![tactic(auto)]

mod taking;
mod walk;

pub use taking::take;
