// Scripts in and out: what reading, writing and asking for a label answer.
#![tactic(auto)]

use refusals::Refusal;
use table::Table;

// A script that was read: its table, or the refusal and the empty table. Both are asked of a refusal too: document 01; `read_script`.
#[derive(Clone, Copy)]
pub struct Script {
    pub answer: Result<(), Refusal>,
    pub table: Table,
}

// A part of a script: the byte at which it begins, and how many bytes it has.
#[derive(Clone, Copy)]
pub struct Span {
    pub from: usize,
    pub size: usize,
}

// The label of an entry: where its text stands, or the refusal and an empty part. Both are asked of a refusal too: document 01; `label_of`.
#[derive(Clone, Copy)]
pub struct Label {
    pub answer: Result<(), Refusal>,
    pub span: Span,
}

// A script that was written: how many bytes it has, or the refusal and 0. Both are asked of a refusal too: document 01; `write_script`.
#[derive(Clone, Copy)]
pub struct Written {
    pub answer: Result<(), Refusal>,
    pub size: usize,
}
