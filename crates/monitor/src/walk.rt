// One accepted step: the entries in script order.
ghost use Rattle.std.specs.Prelude.{◌≡◌, suc, ◌<◌, ◌^◌, pos, Ok};
ghost use Rattle.table.specs.Tables.{entry_at};
ghost use Rattle.meaning.specs.Places.{places_of};
ghost use Rattle.meaning.specs.Inside.{Inside};
ghost use Rattle.meaning.specs.Meaning.{meaning};
ghost use Rattle.memory.specs.Memory.{memory_of, remember};
ghost use Rattle.memory.specs.Recall.{givens_from};
ghost use Rattle.monitor.specs.Keeping.{unsound};
ghost use Rattle.monitor.specs.Stepping.{advanced};

use crate::{Monitor, Stepped};
use meaning::{Places, places_of, result};
use memory::{givens, memory_of, remember};
use step::{Taken, Told};
use table::{Entry, Table};
use values::{Number, Outcome, Slot, Truth};

// What an entry says at a step, and what it remembers for the next.
#[derive(Clone, Copy)]
struct Judged {
    outcome: Outcome,
    cell: u64,
}

// An entry by the results x and y at its operand entries, by what the step and the variables tell it, and by what it remembers.
// Eight arguments, for reason (d): a struct of them would be made and taken apart at this one call, and the contract names each of them.
fn judge(
    e: Entry,
    x: Outcome,
    y: Outcome,
    told: Told,
    reported: Truth,
    held: Number,
    time: u64,
    cell: u64,
) -> Judged
    requires { time < 2 ^ 47 }
    ensures { (result.outcome ≡ meaning e x y (givens_from told reported held (pos time) (suc time) cell x y)) × (result.cell ≡ remember (memory_of e) x y (suc time) cell) }
{
    let now = time + 1;
    let g = givens(told, reported, held, time as i64, now, cell, x, y);
    Judged {
        outcome: result(e, x, y, g),
        cell: remember(memory_of(e), x, y, now, cell),
    }
}

// Where entry k looks: in a sound monitor there is a slot for each place.
fn places_at(m: &Monitor, k: usize) -> Places
    requires { (unsound m.now ≡ Ok tt) × (k < m.now.table.n) }
    ensures are { result ≡ places_of (entry_at m.now.table k) }
    ensures inside { Inside result }
{
    places_of(m.table.entries[k])
}

// "Entries are taken in script order within a step."
pub(crate) fn advance(m: Monitor, s: Taken) -> Stepped
    requires { (unsound m ≡ Ok tt) × (s.time < 2 ^ 47) }
    ensures { result ≡ advanced m s }
{
    let mut held = m.held;
    let mut cells = m.cells;
    let mut results = [Slot {
        outcome: Outcome::Nothing,
    }; Table::ENTRIES];
    for k in 0..m.table.n {
        let p = places_at(&m, k);
        let y = results[p.second].outcome;
        let judged = judge(
            m.table.entries[k],
            results[p.first].outcome,
            y,
            s.told[p.imported],
            s.reported[p.imported],
            held[p.variable],
            s.time,
            m.cells[k],
        );
        results[k] = Slot {
            outcome: judged.outcome,
        };
        cells[k] = judged.cell;
        if judged.outcome.done() {
            held[p.variable] = y.number();
        }
    }
    Stepped {
        answer: Ok(()),
        monitor: Monitor {
            table: m.table,
            last: s.time + 1,
            reported: s.reported,
            held,
            cells,
        },
        results,
    }
}
