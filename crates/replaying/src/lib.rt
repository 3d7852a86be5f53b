// A recorded stream, played piece by piece: the lines of the bytes that are there, and what has to be kept for the next ones.
#![tactic(auto)]

mod framing;
mod opening;
mod printing;
mod rows;
mod running;
mod texts;
mod turning;

use monitor::Monitor;
use table::Table;
pub use turning::{new_player, play};

// How far a stream has come: its script is awaited, steps are awaited, or all its lines are printed.
#[derive(Clone, Copy)]
pub enum Stage {
    Script,
    Steps,
    Over,
}

// What is kept of a stream between two pieces of it.
#[derive(Clone, Copy)]
pub struct Player {
    pub stage: Stage,
    // the text of each label, 32 bytes for each entry
    pub texts: [u8; 4096],
    // and how many of these bytes it has
    pub sizes: [u8; Table::ENTRIES],
    pub monitor: Monitor,
    pub accepted: u64,
    pub refused: u64,
}

// A piece that was played: the player for the next one, how many bytes of the input were taken and how many of the output filled.
#[derive(Clone, Copy)]
pub struct Turn {
    pub player: Player,
    pub over: bool,
    pub taken: usize,
    pub filled: usize,
}
