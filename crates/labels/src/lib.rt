// Labels read one after another, up to the end of the bytes.
// Fields are taken apart by let .. else, for reason (a): document 01 names the form.
#![tactic(auto)]

mod counting;

ghost use Rattle.std.specs.Prelude.{◌≡◌, ◌*◌};
ghost use Rattle.std.specs.List.{list_all};
ghost use Rattle.script.specs.Labels.{label};
ghost use Rattle.labels.specs.Among.{answer_of, label_among};
ghost use Rattle.labels.specs.Laws.{found_in, is_printable};

pub use counting::{before, labelled};
use refusals::Refusal;
use script::{Label, Span};

// "from 0x20 to 0x7E"
fn is_printable(byte: u8) -> bool
    ensures { result ≡ is_printable byte }
{
    (0x20..=0x7E).contains(&byte)
}

// Every byte of a text is such a byte.
fn all_printable(text: &[u8]) -> bool
    ensures { result ≡ list_all is_printable text.now }
{
    text.iter().all(|byte| is_printable(*byte))
}

// The label whose length is byte `from`.
#[tactic(auto, using(crate::specs::Laws::length_within), unfolding(script::specs::Labels::label, script::specs::Labels::text))]
fn one(s: &[u8], from: usize) -> Result<Span, Refusal>
    ensures { result ≡ found_in (label s.now (8 * from)) }
{
    let Some(size) = bits::byte_at(s, from) else {
        return Err(Refusal::Cut);
    };
    let too_long = 32 < size;
    if too_long {
        return Err(Refusal::Label);
    }
    let size = size as usize;
    let first = from + 1;
    let cut = s.len() - first < size;
    if cut {
        return Err(Refusal::Cut);
    }
    if !all_printable(&s[first..first + size]) {
        return Err(Refusal::Label);
    }
    Ok(Span { from: first, size })
}

// The text of the wanted one of the labels from byte `from` on, as many as `count`, up to the end of the bytes.
fn among(s: &[u8], from: usize, count: usize, wanted: usize) -> Result<Span, Refusal>
    ensures { answer_of result ≡ label_among count wanted s.now (8 * from) }
{
    let mut at = from;
    let mut span = Span { from: 0, size: 0 };
    for j in 0..count {
        let text = one(s, at)?;
        at = text.from + text.size;
        if j == wanted {
            span = text;
        }
    }
    if at != s.len() {
        return Err(Refusal::LeftOver);
    }
    Ok(span)
}

// The labels from byte `from` on, as many as `count`, and where the text of the wanted one stands, counted from 0; refused, an empty part.
pub fn read(s: &[u8], from: usize, count: usize, wanted: usize) -> Label
    ensures { result ≡ label_among count wanted s.now (8 * from) }
{
    match among(s, from, count, wanted) {
        Ok(span) => Label {
            answer: Ok(()),
            span,
        },
        Err(refusal) => Label {
            answer: Err(refusal),
            span: Span { from: 0, size: 0 },
        },
    }
}
