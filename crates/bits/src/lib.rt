// Fields of 1 to 48 bits in bytes, taken and put, and whole numbers as 48 bits.
#![tactic(auto)]

mod putting;
mod taking;
mod twos;
mod wide;
mod window;

pub use putting::put;
pub use taking::{byte_at, field_at};
pub use twos::{signed, unsigned};
