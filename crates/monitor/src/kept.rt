// When a monitor is at fault: its table, or a kept number or time out of range.
ghost use Rattle.std.specs.Prelude.{◌≡◌, get_or};
ghost use Rattle.refusals.specs.Numbering.{unless, first_fault};
ghost use Rattle.table.specs.Limits.{limits};
ghost use Rattle.table.specs.Tables.{number_at};
ghost use Rattle.table.specs.Faults.{number_fault};
ghost use Rattle.memory.specs.Recall.{kept_fits};
ghost use Rattle.monitor.specs.Keeping.{kept_fault, unsound};

use crate::Monitor;
use refusals::Refusal;
use table::Table;
use values::Number;

// "Times are milliseconds, 0 to 2^47-1": a kept time is one more than the time, and 0 where there is none.
fn kept_fits(kept: u64) -> bool
    ensures { result ≡ kept_fits kept }
{
    kept <= 140737488355328
}

// "a kept number ... out of range": the number that each variable holds.
fn held_fault(held: &[Number; Table::VARIABLES]) -> Result<(), Refusal>
    ensures { result ≡ first_fault limits.variables (λ x. number_fault (number_at held.now x)) }
{
    for slot in held {
        if !slot.in_range() {
            return Err(Refusal::Range);
        }
    }
    Ok(())
}

// "a kept ... time out of range": what each entry remembers.
fn cells_fault(cells: &[u64; Table::ENTRIES]) -> Result<(), Refusal>
    ensures { result ≡ first_fault limits.slots (λ k. unless (kept_fits (get_or cells.now k 0)) Refusal.Unsound) }
{
    for cell in cells {
        if !kept_fits(*cell) {
            return Err(Refusal::Unsound);
        }
    }
    Ok(())
}

// "a kept number or time out of range": the last time, then the numbers, then what the entries remember.
fn kept_fault(m: Monitor) -> Result<(), Refusal>
    ensures { result ≡ kept_fault m }
{
    if !kept_fits(m.last) {
        return Err(Refusal::Unsound);
    }
    // Locals, for reason (b): lent from `m` itself, a copy of the whole monitor stands on the stack, 2,896 bytes more for a step of the library.
    let held = m.held;
    held_fault(&held)?;
    let cells = m.cells;
    cells_fault(&cells)
}

// "29: monitor or table that the writer would refuse with 4, 7, 8 or 13, or a kept number or time out of range"
pub fn unsound(m: Monitor) -> Result<(), Refusal>
    ensures { result ≡ unsound m }
{
    sound::fault(m.table).or(Err(Refusal::Unsound))?;
    kept_fault(m).or(Err(Refusal::Unsound))
}
