// Labels shown as parts of the caller's script, with the refusal's number.
#![tactic(auto)]

ghost use Rattle.std.specs.Prelude.{◌≡◌, ◌+◌};
ghost use Rattle.script.specs.Reader.{label_of, text_of, block_of};
ghost use Rattle.reader.specs.Scans.{block_span};
ghost use Rattle.parts.specs.Shown.{outcome_number, script_number};

use refusals::Refusal;

// The refusal's number, 0 where nothing is refused.
pub fn outcome(answer: Result<(), Refusal>) -> u8
    ensures { result ≡ outcome_number answer }
{
    match answer {
        Ok(()) => 0,
        Err(r) => u8::from(r),
    }
}

// "A label is shown as the part of the script where its text stands; refused (script numbers, then 30), the part is empty."
// The number is lent: a `Result` would give a refusal no part, and clause `place` says where the empty part stands.
pub fn label<'a>(s: &'a [u8], k: usize, number: &mut u8) -> &'a [u8]
    ensures text { result.now ≡ text_of s.now (label_of s.now k) }
    ensures place { (result.ref_ptr.0 ≡ s.entry.ref_ptr.0) × (result.ref_ptr.1 ≡ s.entry.ref_ptr.1 + (label_of s.now k).span.from) }
    ensures number { number.new ≡ outcome_number (label_of s.now k).answer }
{
    let found = reader::find_label(s, k);
    *number = outcome(found.answer);
    let from = found.span.from;
    let end = from + found.span.size;
    &s[from..end]
}

// The block of labels of a script, as the writer takes it; refused, the part is empty. The number is lent, as by `label`: clause `place`.
pub fn block<'a>(s: &'a [u8], number: &mut u8) -> &'a [u8]
    ensures text { result.now ≡ block_of s.now }
    ensures place { (result.ref_ptr.0 ≡ s.entry.ref_ptr.0) × (result.ref_ptr.1 ≡ s.entry.ref_ptr.1 + (block_span s.now).from) }
    ensures number { number.new ≡ script_number s.now }
{
    let scan = reader::scan_script(s, 0);
    *number = outcome(scan.answer);
    let first = scan.block.from;
    let last = first + scan.block.size;
    &s[first..last]
}
