// What one entry keeps in its cell from one step to the next, and what it looks at.
#![tactic(auto)]

mod cells;
mod recalling;
mod remembering;

pub use cells::remember;
pub use recalling::givens;
pub use remembering::memory_of;

// What an entry has to remember: nothing, that its pair is open, that its condition stood, that it failed, or its event's latest time.
#[derive(Clone, Copy)]
pub enum Memory {
    Nothing,
    Open,
    Stood,
    Failed,
    Latest,
}
