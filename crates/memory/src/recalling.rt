// What an entry looks at, from this step and from its cell.
ghost use Rattle.std.specs.Prelude.{◌≡◌};
ghost use Rattle.memory.specs.Recall.{kept_time, givens_from};

use crate::cells::{latest_now, open_now};
use meaning::Givens;
use step::Told;
use values::{Number, Outcome, Truth};

// The time that is kept.
fn kept_time(c: u64) -> Number
    ensures { result ≡ kept_time c }
{
    match c {
        1..=140737488355328 => {
            let time = c - 1;
            Number::Whole(time as i64)
        }
        _ => Number::Undefined,
    }
}

// What an entry looks at besides the results x and y at its operand entries. Eight arguments, for reason (d): a struct of them would hold the
// first four fields of `Givens` over again, and be made and taken apart at this one call.
pub fn givens(
    told: Told,
    reported: Truth,
    held: Number,
    clock: i64,
    now: u64,
    cell: u64,
    x: Outcome,
    y: Outcome,
) -> Givens
    ensures { result ≡ givens_from told reported held clock now cell x y }
{
    let marked = 0 < cell;
    let first = x.event();
    Givens {
        told,
        clock,
        reported,
        held,
        paired: open_now(marked, first, y.event()),
        stood: marked,
        failed: marked,
        latest: kept_time(latest_now(first, now, cell)),
    }
}
