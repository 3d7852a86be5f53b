// Scripts read: a table, a label or the block of labels, or the first refusal.
#![tactic(auto)]

mod head;
mod packed;
mod rules;
mod scanning;

use refusals::Refusal;
pub use scanning::{find_label, read, scan_script};
use script::{Label, Span};
use table::Table;

// How far reading came: the table so far and the bit after it.
#[derive(Clone, Copy)]
pub struct Stage {
    pub at: usize,
    pub table: Table,
}

// A script read in one pass: its table, where its block of labels stands, and the label of one entry.
// All are asked of a refusal too, which has the empty table and empty parts: document 01; `scan_of`.
#[derive(Clone, Copy)]
pub struct Scan {
    pub answer: Result<(), Refusal>,
    pub table: Table,
    pub block: Span,
    pub label: Label,
}
