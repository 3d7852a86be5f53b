// Fields of a line, each with a space before it.
ghost use Rattle.std.specs.Prelude.{◌∷◌};
ghost use Rattle.lines.specs.Laying.{Lays};
ghost use Rattle.lines.specs.Text.{decimal};

// A space and a text.
pub fn put_word(out: &mut [u8], at: usize, text: &[u8]) -> usize
    ensures { Lays out.old at (32 ∷ text.now) out.new result }
{
    let first = crate::put_byte(out, at, b' ');
    crate::put(out, first, text)
}

// A space and a number.
pub fn put_number(out: &mut [u8], at: usize, n: u64) -> usize
    ensures { Lays out.old at (32 ∷ decimal n) out.new result }
{
    let next = crate::put_byte(out, at, b' ');
    crate::put_decimal(out, next, n)
}
