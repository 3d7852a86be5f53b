// What the programs share: an input read to its end, the parts of a case, and the numbers in them.
#![tactic(auto)]

mod input;
mod numbers;
mod parts;
mod slots;

pub use input::read_full;
pub use numbers::{byte, number, word};
pub use parts::{Parts, split_part};
pub use slots::set;

// Room for every case.
pub const ROOM: usize = 131072;
