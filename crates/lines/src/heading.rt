// The line of a script, accepted or refused.
ghost use Rattle.std.specs.Prelude.{[], ◌∷◌};
ghost use Rattle.lines.specs.Laying.{Lays};
ghost use Rattle.lines.specs.Text.{decimal, line, script_word, refused_word, script_line, script_refused_line};

use crate::fields::{put_number, put_word};
use refusals::Refusal;

// "The first line gives n."
pub fn put_script(out: &mut [u8], at: usize, n: usize) -> usize
    ensures { Lays out.old at (script_line n) out.new result }
{
    let at = crate::put(out, at, b"script");
    let numbered = put_number(out, at, n as u64);
    crate::put_byte(out, numbered, b'\n')
}

// "script refused", and a number.
fn refused_line(out: &mut [u8], at: usize, n: u8) -> usize
    ensures { Lays out.old at (line (script_word ∷ refused_word ∷ decimal n ∷ [])) out.new result }
{
    let at = crate::put(out, at, b"script");
    let at = put_word(out, at, b"refused");
    let at = put_number(out, at, n as u64);
    crate::put_byte(out, at, b'\n')
}

// "a refused script prints `script refused` and its number"
pub fn put_script_refused(out: &mut [u8], at: usize, r: Refusal) -> usize
    ensures { Lays out.old at (script_refused_line r) out.new result }
{
    refused_line(out, at, u8::from(r))
}
