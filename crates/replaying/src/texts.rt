// The texts of a script's labels, kept so that a line finds its label at once.
ghost use Rattle.std.specs.Prelude.{◌≡◌, ◌+◌, ◌<◌, length, take, drop};
ghost use Rattle.stream.specs.Replay.{label_text};
ghost use Rattle.replaying.specs.Moving.{text_at, texts_of, sizes_of};
ghost use Rattle.replaying.specs.Texts.{TextsTo};

use table::Table;

// The text of each label, 32 bytes for each entry, and how many of these bytes it has.
#[derive(Clone, Copy)]
pub(crate) struct Texts {
    pub(crate) texts: [u8; 4096],
    pub(crate) sizes: [u8; Table::ENTRIES],
}

// The text of entry k's label, put into the 32 bytes of entry k; how many bytes it has. `parts` lends the number of a refusal, for the reason that
// stands there.
fn put_text(script: &[u8], k: usize, texts: &mut [u8; 4096]) -> u8
    requires { (k < 128) × TextsTo script.now (text_at k) texts.old }
    ensures { TextsTo script.now (text_at (k + 1)) texts.new × (result ≡ length (label_text script.now k)) }
{
    let mut number: u8 = 0;
    let text = parts::label(script, k, &mut number);
    let from = 32 * k;
    texts[from..from + text.len()].copy_from_slice(text);
    text.len() as u8
}

// The text of every label of a script.
pub(crate) fn texts_of(script: &[u8]) -> Texts
    ensures { (result.texts ≡ texts_of script.now) × (result.sizes ≡ sizes_of script.now) }
{
    let mut texts = [0; 4096];
    let mut sizes = [0; Table::ENTRIES];
    for (k, size) in sizes.iter_mut().enumerate() {
        *size = put_text(script, k, &mut texts);
    }
    Texts { texts, sizes }
}

// The text of entry k's label, of so many bytes.
pub(crate) fn text_of(texts: &[u8], k: usize, size: u8) -> &[u8]
    ensures { result.now ≡ take size (drop (text_at k) texts.now) }
{
    let wanted = size as usize;
    // As `&rest[..wanted.min(rest.len())]` it proves, but `printed_rows` then takes a third more instructions for a row.
    if texts.len() / 32 < k {
        return &texts[0..0];
    }
    let from = 32 * k;
    if texts.len() - from < wanted {
        return &texts[from..];
    }
    let end = from + wanted;
    &texts[from..end]
}
