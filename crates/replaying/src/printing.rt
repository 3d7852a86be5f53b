// The line of a result that is printed, the line of a refused step, and the last lines.
ghost use Rattle.std.specs.Prelude.{[], ◌∷◌};
ghost use Rattle.lines.specs.Laying.{Lays};
ghost use Rattle.lines.specs.Text.{decimal, line};
ghost use Rattle.stream.specs.Lines.{refused_line, cut_line, last_line};
ghost use Rattle.stream.specs.Replay.{closing};

use refusals::Refusal;

// Time, a word, entry number, label.
pub(crate) fn word_line(
    out: &mut [u8],
    at: usize,
    time: u64,
    word: &[u8],
    k: usize,
    text: &[u8],
) -> usize
    ensures { Lays out.old at (line (decimal time ∷ word.now ∷ decimal k ∷ text.now ∷ [])) out.new result }
{
    let at = lines::put_decimal(out, at, time);
    let at = lines::put_word(out, at, word);
    let at = lines::put_number(out, at, k as u64);
    let at = lines::put_word(out, at, text);
    lines::put_byte(out, at, b'\n')
}

// "A refused step prints `refused` and its number"
pub(crate) fn refused_line(out: &mut [u8], at: usize, r: Refusal) -> usize
    ensures { Lays out.old at (refused_line r) out.new result }
{
    let number = u8::from(r);
    let at = lines::put(out, at, b"refused");
    let at = lines::put_number(out, at, number as u64);
    lines::put_byte(out, at, b'\n')
}

// "prints `cut`"
pub(crate) fn cut_line(out: &mut [u8], at: usize) -> usize
    ensures { Lays out.old at cut_line out.new result }
{
    lines::put(out, at, b"cut\n")
}

// "The last counts accepted and refused steps."
fn last_line(out: &mut [u8], at: usize, accepted: u64, refused: u64) -> usize
    ensures { Lays out.old at (last_line accepted refused) out.new result }
{
    let at = lines::put(out, at, b"steps");
    let at = lines::put_number(out, at, accepted);
    let at = lines::put_word(out, at, b"refused");
    let at = lines::put_number(out, at, refused);
    lines::put_byte(out, at, b'\n')
}

// "Input that stops inside a record or its length prints `cut` before the last line"
pub(crate) fn closing_lines(
    out: &mut [u8],
    at: usize,
    cut: bool,
    accepted: u64,
    refused: u64,
) -> usize
    ensures { Lays out.old at (closing cut (record { accepted = accepted; refused = refused })) out.new result }
{
    if cut {
        let at = cut_line(out, at);
        return last_line(out, at, accepted, refused);
    }
    last_line(out, at, accepted, refused)
}
