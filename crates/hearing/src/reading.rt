// A step heard from front to back: its time, its reports one after another, and its end.
// Fields are taken apart by let .. else, for reason (a): document 01 names the form.
ghost use Rattle.std.specs.Prelude.{◌≡◌, ◌≤◌, eqb, get_or, replicate};
ghost use Rattle.table.specs.declared.Table as tables;
ghost use Rattle.step.specs.Hearing.{heard_of, next_report};
ghost use Rattle.hearing.specs.Hearing.{event_words, Heard};
ghost use Rattle.hearing.specs.Lent.{lent};
ghost use Rattle.hearing.specs.Nexts.{as_word};
ghost use Rattle.hearing.specs.Gathering.{kept_at, Gathered};

use crate::Word;
use refusals::Refusal;
use step::{close, import, report_for};
use table::Table;

// The word of import i is kept, where there is such an import.
fn keep(told: &mut [u64], i: usize, word: u64)
    ensures { told.new ≡ kept_at told.old i word }
{
    if i < Table::IMPORTS && i < told.len() {
        told[i] = word;
    }
}

// "1 an event, 0 a condition"; past the words none is an event.
fn is_event(events: &[u64], i: usize) -> bool
    ensures { result ≡ eqb (get_or events.now i 0) 1 }
{
    events.get(i).copied().unwrap_or(0) == 1
}

// The next report, read by what is lent of the table: how many imports it has, and which are events.
fn next_report(
    s: &[u8],
    at: usize,
    q: usize,
    least: usize,
    events: &[u64],
) -> Result<step::Heard<Word>, Refusal>
    requires { at ≤ 4096 }
    ensures { result ≡ heard_of as_word (next_report (lent q events.now) least s.now at) }
{
    let i = import(s, at, q, least)?;
    report_for(s, at + 6, i, is_event(events, i))
}

// "the reports, import numbers strictly rising", and the end of the step.
fn reports(
    q: usize,
    count: usize,
    events: &[u64],
    s: &[u8],
    told: &mut [u64],
) -> Result<(), Refusal>
    requires { count ≤ 63 }
    ensures { told.old ≡ replicate 64 0 → Gathered (lent q events.now) count s.now result told.new }
{
    let mut at: usize = 53;
    let mut least: usize = 0;
    for k in 0..count {
        let report = next_report(s, at, q, least, events)?;
        keep(told, report.imported, report.told.word);
        at = report.next;
        least = report.imported + 1;
    }
    close(s, at)
}

// A step read from front to back: its time, or the first fault. What it tells of each import goes into `told`, as words; there are `q` imports, and
// `events` says which are events.
pub fn hear(
    q: usize,
    earliest: u64,
    events: &[u64],
    s: &[u8],
    told: &mut [u64],
) -> Result<u64, Refusal>
    ensures { (t : tables.Table) → t.q ≡ q → events.now ≡ event_words t → told.old ≡ replicate 64 0 → Heard t earliest s.now result told.new }
{
    let Some(time) = bits::field_at(s, 0, 47) else {
        return Err(Refusal::StepCut);
    };
    if time < earliest {
        return Err(Refusal::Time);
    }
    let Some(count) = bits::field_at(s, 47, 6) else {
        return Err(Refusal::StepCut);
    };
    reports(q, count as usize, events, s, told)?;
    Ok(time)
}
