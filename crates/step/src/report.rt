// One report of a step: its import number, judged, and what follows it.
// Fields are taken apart by let .. else, for reason (a): document 01 names the form.
ghost use Rattle.std.specs.Prelude.{◌≡◌, ◌≤◌};
ghost use Rattle.table.specs.declared.Table as tables;
ghost use Rattle.step.specs.Reader.{condition_report, event_report, report_for};
ghost use Rattle.step.specs.Hearing.{import_at, heard_of, about};

use crate::{Heard, Telling};
use refusals::Refusal;

// "for a condition 2 bits (00 false, 01 true, 10 undefined)"; 11 is refused
fn condition<T: Telling>(s: &[u8], at: usize, imported: usize) -> Result<Heard<T>, Refusal>
    requires { at ≤ 65536 }
    ensures { result ≡ heard_of T.form (about imported (condition_report s.now at)) }
{
    let Some(code) = bits::field_at(s, at, 2) else {
        return Err(Refusal::StepCut);
    };
    let unknown = 3 <= code;
    if unknown {
        return Err(Refusal::ConditionReport);
    }
    Ok(Heard {
        imported,
        told: T::condition(code),
        next: at + 2,
    })
}

// "for an event 1 bit and, if that is 1, a 48-bit value"
fn event<T: Telling>(s: &[u8], at: usize, imported: usize) -> Result<Heard<T>, Refusal>
    requires { at ≤ 65536 }
    ensures { result ≡ heard_of T.form (about imported (event_report s.now at)) }
{
    let Some(bit) = bits::field_at(s, at, 1) else {
        return Err(Refusal::StepCut);
    };
    let first = at + 1;
    if bit != 1 {
        return Ok(Heard {
            imported,
            told: T::event(),
            next: first,
        });
    }
    let Some(value) = bits::field_at(s, first, 48) else {
        return Err(Refusal::StepCut);
    };
    Ok(Heard {
        imported,
        told: T::valued(value),
        next: first + 48,
    })
}

// What follows the number of an import, for an event and for a condition.
pub fn report_for<T: Telling>(
    s: &[u8],
    at: usize,
    imported: usize,
    of_event: bool,
) -> Result<Heard<T>, Refusal>
    requires { at ≤ 65536 }
    ensures { result ≡ heard_of T.form (about imported (report_for of_event s.now at)) }
{
    if of_event {
        event(s, at, imported)
    } else {
        condition(s, at, imported)
    }
}

// The import number of a report, judged: there are q imports, and the least that may come is `least`.
pub fn import(s: &[u8], at: usize, q: usize, least: usize) -> Result<usize, Refusal>
    requires { at ≤ 65536 }
    ensures { (t : tables.Table) → t.q ≡ q → result ≡ import_at t least s.now at }
{
    let Some(i) = bits::field_at(s, at, 6) else {
        return Err(Refusal::StepCut);
    };
    let i = i as usize;
    if q <= i {
        return Err(Refusal::StepImport);
    }
    if i < least {
        return Err(Refusal::ImportOrder);
    }
    Ok(i)
}
