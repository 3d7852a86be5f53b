// One entry judged at a step, on words alone.
#![tactic(auto)]

mod conditions;
mod events;
mod numbers;
mod picking;

ghost use Rattle.std.specs.Prelude.{◌≡◌};
ghost use Rattle.judging.specs.Rows.{result_word, cell_word};

use conditions::{and, defined, equal, implies, less, not, or, pair, property};
use events::{both, either, end, occurs, start, when};
use numbers::{difference, sum, time, value};
use picking::pick;

// What an entry says at a step, and what it remembers for the next, as words.
#[derive(Clone, Copy)]
pub struct Judged {
    pub outcome: u64,
    pub cell: u64,
}

// Most kinds remember nothing: the cell is as it was.
fn keep(outcome: u64, cell: u64) -> Judged
    ensures { (result.outcome ≡ outcome) × (result.cell ≡ cell) }
{
    Judged { outcome, cell }
}

// An entry by its word w, by the words x and y at its operand entries, by what the step and the variables tell it, and by what it remembers.
// Nine arguments, for reason (a): a judging is one row of the table of words, and the contract (`result_word`, `cell_word`) names each of them.
#[tactic(auto, unfolding(crate::specs::Rows::result_word, crate::specs::Rows::cell_word))]
pub fn judge(
    w: u64,
    x: u64,
    y: u64,
    told: u64,
    reported: u64,
    held: u64,
    clock: u64,
    now: u64,
    cell: u64,
) -> Judged
    ensures { (result.outcome ≡ result_word w x y told reported held clock now cell) × (result.cell ≡ cell_word w x y told reported held clock now cell) }
{
    match w % 32 {
        0 => keep(reported, cell),
        1 => keep(defined(x), cell),
        2 => pair(x, y, cell),
        3 => keep(not(x), cell),
        4 => keep(or(x, y), cell),
        5 => keep(and(x, y), cell),
        6 => keep(implies(x, y), cell),
        7 => keep(less(x, y), cell),
        8 => keep(equal(x, y), cell),
        9 => keep(occurs(told), cell),
        10 => start(x, cell),
        11 => end(x, cell),
        12 => keep(both(x, y), cell),
        13 => keep(either(x, y), cell),
        14 => keep(when(x, y), cell),
        15 => keep(w / 32, cell),
        16 => keep(held, cell),
        17 => keep(sum(x, y), cell),
        18 => keep(difference(x, y), cell),
        19 => keep(clock, cell),
        20 => keep(value(told), cell),
        21 => time(x, now, cell),
        22 => keep(pick(x == 6, 8, 7), cell),
        23 => keep(pick(x == 6, 10, 9), cell),
        24 => keep(property(x), cell),
        _ => keep(0, cell),
    }
}
