// A step read from front to back: its time, its reports one after another, and its end.
// Fields are taken apart by let .. else, for reason (a): document 01 names the form.
ghost use Rattle.std.specs.Prelude.{false, ◌≡◌, ◌≤◌, get_or};
ghost use Rattle.table.specs.declared.Table as tables;
ghost use Rattle.step.specs.Reader.{read_step};
ghost use Rattle.step.specs.Taking.{reported_now, taken_of, taken_from};
ghost use Rattle.step.specs.Hearing.{heard_of, next_report};
ghost use Rattle.step.specs.Stages.{after_count};

use crate::{Heard, Taken, Told, close, import, report_for};
use refusals::Refusal;
use table::Table;
use values::Truth;

// This step's report of a condition, else what was reported before.
fn reported_now(told: Told, before: Truth) -> Truth
    ensures { result ≡ reported_now told before }
{
    match told {
        Told::Condition(c) => c,
        Told::Nothing | Told::Event(_) => before,
    }
}

// Whether an import is an event; past the slots none is.
fn is_event(events: &[bool], i: usize) -> bool
    ensures { result ≡ get_or events.now i false }
{
    events.get(i).copied().unwrap_or(false)
}

// The next report, by how many imports there are and which are events.
fn next_report(
    s: &[u8],
    at: usize,
    q: usize,
    least: usize,
    events: &[bool],
) -> Result<Heard<Told>, Refusal>
    requires { at ≤ 4096 }
    ensures { (t : tables.Table) → t.q ≡ q → t.events ≡ events.now → result ≡ heard_of (λ told. told) (next_report t least s.now at) }
{
    let i = import(s, at, q, least)?;
    report_for(s, at + 6, i, is_event(events, i))
}

// "the reports, import numbers strictly rising", and the end of the step.
fn reports(
    t: Table,
    time: u64,
    count: usize,
    earlier: [Truth; Table::IMPORTS],
    s: &[u8],
) -> Result<Taken, Refusal>
    requires { count ≤ 63 }
    ensures { taken_from earlier result ≡ taken_of earlier (after_count t time count s.now) }
{
    let mut told = [Told::Nothing; Table::IMPORTS];
    let mut reported = earlier;
    let mut at: usize = 53;
    let mut least: usize = 0;
    for k in 0..count {
        let report = next_report(s, at, t.q, least, &t.events)?;
        let i = report.imported;
        if i < Table::IMPORTS {
            told[i] = report.told;
            reported[i] = reported_now(report.told, earlier[i]);
        }
        at = report.next;
        least = i + 1;
    }
    close(s, at)?;
    Ok(Taken {
        answer: Ok(()),
        time,
        told,
        reported,
    })
}

// A step that is taken, or the first fault.
fn accepted(
    t: Table,
    earliest: u64,
    reported: [Truth; Table::IMPORTS],
    s: &[u8],
) -> Result<Taken, Refusal>
    ensures { taken_from reported result ≡ taken_of reported (read_step t earliest s.now 0) }
{
    let Some(time) = bits::field_at(s, 0, 47) else {
        return Err(Refusal::StepCut);
    };
    if time < earliest {
        return Err(Refusal::Time);
    }
    let Some(count) = bits::field_at(s, 47, 6) else {
        return Err(Refusal::StepCut);
    };
    reports(t, time, count as usize, reported, s)
}

// A step read from front to back: what it tells, or the first fault; of a refused one nothing is told, and the reported values are as they came.
pub fn read(t: Table, earliest: u64, reported: [Truth; Table::IMPORTS], s: &[u8]) -> Taken
    ensures { result ≡ taken_of reported (read_step t earliest s.now 0) }
{
    match accepted(t, earliest, reported, s) {
        Ok(taken) => taken,
        Err(refusal) => Taken {
            answer: Err(refusal),
            time: 0,
            told: [Told::Nothing; Table::IMPORTS],
            reported,
        },
    }
}
