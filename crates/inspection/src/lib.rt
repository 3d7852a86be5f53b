// What `inspect` shows of a script: for each alarm and property, the entries and imports that it reaches, and whether the clock.
#![tactic(auto)]

mod fields;
mod rule;

ghost use Rattle.std.specs.Prelude.{◌<◌, ◌≤◌, length};
ghost use Rattle.lines.specs.Laying.{Lays};
ghost use Rattle.inspection.specs.Inspected.{rules_to, inspected};
ghost use Rattle.inspection.specs.Rules.{lines_at};

use rule::rule_lines;
use table::Table;

// The lines of entry k, if it is an alarm or a property.
fn entry_lines(s: &[u8], t: Table, k: usize, out: &mut [u8], at: usize) -> usize
    requires { k < 128 }
    ensures { Lays out.old at (lines_at s.now t k) out.new result }
{
    let e = t.entries[k];
    if labels::labelled(e) {
        return rule_lines(s, k, e, reacher::of_entry(t, k), out, at);
    }
    at
}

// "for each alarm and property entry K in order"
fn rules(s: &[u8], t: Table, out: &mut [u8], from: usize) -> usize
    requires { t.n ≤ 128 }
    ensures { Lays out.old from (rules_to s.now t t.n) out.new result }
{
    let mut at = from;
    for k in 0..t.n {
        at = entry_lines(s, t, k, out, at);
    }
    at
}

// What `inspect` prints for the bytes of a script, laid into `out` as far as there is room; how many bytes of `out` are then filled.
pub fn lines(script: &[u8], out: &mut [u8]) -> usize
    ensures lays { Lays out.old 0 (inspected script.now) out.new result }
    ensures within { result ≤ length out.old }
{
    let read = reader::read(script);
    match read.answer {
        Ok(()) => {
            let at = lines::put_script(out, 0, read.table.n);
            rules(script, read.table, out, at)
        }
        Err(r) => lines::put_script_refused(out, 0, r),
    }
}
