// One pass over a script: its table, its block of labels, and the label of one entry.
ghost use Rattle.std.specs.Prelude.{◌&&◌, ◌≡◌, ◌*◌, ◌≤◌, ltb, length};
ghost use Rattle.bits.specs.Reading.{got};
ghost use Rattle.table.specs.Kinds.{labelled};
ghost use Rattle.table.specs.Tables.{entry_at};
ghost use Rattle.script.specs.Reader.{packed_table, read_script, label_of};
ghost use Rattle.reader.specs.Scans.{scan_of, refused_scan, shown, told};

use crate::Scan;
use crate::packed::packed;
use refusals::Refusal;
use script::{Label, Script, Span};
use table::Table;

// A script that is refused: its number and the empty table.
fn refused_scan(r: Refusal) -> Scan
    ensures { result ≡ refused_scan r }
{
    Scan {
        answer: Err(r),
        table: Table::empty(),
        block: Span { from: 0, size: 0 },
        label: Label {
            answer: Err(r),
            span: Span { from: 0, size: 0 },
        },
    }
}

// Whether entry k is an alarm or a property of the table.
#[tactic(auto, unfolding(table::specs::Tables::entry_at))]
fn has_label(t: Table, k: usize) -> bool
    requires { t.n ≤ 128 }
    ensures { result ≡ (ltb k t.n && labelled (entry_at t k)) }
{
    k < t.n && labels::labelled(t.entries[k])
}

// "30: no such entry, or, for a label, not an alarm or property"
fn shown_label(named: bool, span: Span) -> Label
    ensures { result ≡ shown named span }
{
    if named {
        Label {
            answer: Ok(()),
            span,
        }
    } else {
        Label {
            answer: Err(Refusal::NoEntry),
            span: Span { from: 0, size: 0 },
        }
    }
}

// The labels of a script whose table is there, from byte `from` on.
fn labels_from(s: &[u8], k: usize, from: usize, table: Table) -> Result<Scan, Refusal>
    requires { (length s.now ≤ 4096) × (packed_table s.now 0 ≡ got table (8 * from)) }
    ensures { told result ≡ scan_of s.now k }
{
    let count = labels::before(table, table.n);
    let wanted = labels::before(table, k);
    let all = labels::read(s, from, count, wanted);
    all.answer?;
    Ok(Scan {
        answer: Ok(()),
        table,
        block: Span {
            from,
            size: s.len() - from,
        },
        label: shown_label(has_label(table, k), all.span),
    })
}

// One pass over any bytes: a script that is accepted, or the refusal.
fn scanned(s: &[u8], k: usize) -> Result<Scan, Refusal>
    ensures { told result ≡ scan_of s.now k }
{
    let too_long = 4096 < s.len();
    if too_long {
        return Err(Refusal::TooLong);
    }
    let stage = packed(s)?;
    labels_from(s, k, stage.at / 8, stage.table)
}

// One pass over any bytes.
pub fn scan_script(s: &[u8], k: usize) -> Scan
    ensures { result ≡ scan_of s.now k }
{
    match scanned(s, k) {
        Ok(scan) => scan,
        Err(r) => refused_scan(r),
    }
}

// The table of a script, or its refusal and the empty table.
#[tactic(auto, unfolding(crate::specs::Scans::scan_of))]
pub fn read(s: &[u8]) -> Script
    ensures { result ≡ read_script s.now }
{
    let scan = scan_script(s, 0);
    Script {
        answer: scan.answer,
        table: scan.table,
    }
}

// Where the label of entry k stands, or its refusal and an empty part.
#[tactic(auto, unfolding(crate::specs::Scans::scan_of))]
pub fn find_label(s: &[u8], k: usize) -> Label
    ensures { result ≡ label_of s.now k }
{
    scan_script(s, k).label
}
