// The head of a script: counts, the sorts of imports, the numbers that variables start with.
// Fields are taken apart by let .. else, for reason (a): document 01 names the form.
ghost use Rattle.std.specs.Prelude.{◌≡◌, ◌≤◌};
ghost use Rattle.script.specs.Reader.{header, imports, variables, starting};
ghost use Rattle.reader.specs.Stages.{reached};
ghost use Rattle.reader.specs.Heads.{counts};

use crate::Stage;
use refusals::Refusal;
use table::Table;
use values::Number;

// "Import count q, 6 bits, 0 to 48. Variable count v, 6 bits, 0 to 32. Four zero bits."
fn counts(s: &[u8], at: usize, n: usize) -> Result<Stage, Refusal>
    requires { at ≤ 65536 }
    ensures { reached result ≡ counts n s.now at }
{
    let Some(q) = bits::field_at(s, at, 6) else {
        return Err(Refusal::Cut);
    };
    let q = q as usize;
    if Table::IMPORTS < q {
        return Err(Refusal::ImportCount);
    }
    let Some(v) = bits::field_at(s, at + 6, 6) else {
        return Err(Refusal::Cut);
    };
    let v = v as usize;
    if Table::VARIABLES < v {
        return Err(Refusal::VariableCount);
    }
    let Some(zeros) = bits::field_at(s, at + 12, 4) else {
        return Err(Refusal::Cut);
    };
    if zeros != 0 {
        return Err(Refusal::HeaderBits);
    }
    let table = Table {
        n,
        q,
        v,
        ..Table::empty()
    };
    Ok(Stage { at: at + 16, table })
}

// "Format number, 8 bits, 1. Entry count n, 8 bits, 1 to 128."
#[tactic(auto, unfolding(script::specs::Reader::header))]
pub(crate) fn header(s: &[u8]) -> Result<Stage, Refusal>
    ensures { reached result ≡ header s.now 0 }
{
    let Some(format) = bits::field_at(s, 0, 8) else {
        return Err(Refusal::Cut);
    };
    if format != 1 {
        return Err(Refusal::Format);
    }
    let Some(n) = bits::field_at(s, 8, 8) else {
        return Err(Refusal::Cut);
    };
    let n = n as usize;
    let too_many = Table::ENTRIES < n;
    if n < 1 || too_many {
        return Err(Refusal::EntryCount);
    }
    counts(s, 16, n)
}

// "q bits, one for each import: 1 an event, 0 a condition."
pub(crate) fn imports(s: &[u8], at: usize, t: Table) -> Result<Stage, Refusal>
    requires { (at ≤ 65536) × (t.q ≤ 48) }
    ensures { reached result ≡ imports t.q 0 t s.now at }
{
    let mut table = t;
    for i in 0..t.q {
        let Some(bit) = bits::field_at(s, at + i, 1) else {
            return Err(Refusal::Cut);
        };
        table.events[i] = bit == 1;
    }
    Ok(Stage {
        at: at + t.q,
        table,
    })
}

// What a variable starts with: the number, or undefined.
fn starting(bit: u64, v: u64) -> Number
    ensures { result ≡ starting bit v }
{
    if bit == 1 {
        Number::Whole(bits::signed(v))
    } else {
        Number::Undefined
    }
}

// "For each variable: 1 bit (1 = starts defined), then 48 bits, two's complement; all zero where it starts undefined."
pub(crate) fn variables(s: &[u8], at: usize, t: Table) -> Result<Stage, Refusal>
    requires { (at ≤ 65536) × (t.v ≤ 32) }
    ensures { reached result ≡ variables t.v 0 t s.now at }
{
    let mut table = t;
    let mut next = at;
    for x in 0..t.v {
        let Some(bit) = bits::field_at(s, next, 1) else {
            return Err(Refusal::Cut);
        };
        let Some(number) = bits::field_at(s, next + 1, 48) else {
            return Err(Refusal::Cut);
        };
        let undefined = bit != 1;
        if undefined && number != 0 {
            return Err(Refusal::Initial);
        }
        table.variables[x] = starting(bit, number);
        next += 49;
    }
    Ok(Stage { at: next, table })
}
