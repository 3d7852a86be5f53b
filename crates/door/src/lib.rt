// The door for C and Rust: what the static library door_c exports. Every buffer is the caller's, and each has its size.
#![tactic(auto)]

mod alarms;
mod labelling;
mod reaching;
mod starting;
mod stepping;
mod writing;

pub use alarms::nimbra_next_alarm;
pub use labelling::{nimbra_label, nimbra_labels};
pub use reaching::nimbra_reach;
pub use starting::nimbra_start;
pub use stepping::{nimbra_step, nimbra_step_held};
pub use writing::nimbra_write;

// The reply where a lent buffer has not its size; no refusal has this number.
pub const WRONG_SIZE: u8 = 90;
