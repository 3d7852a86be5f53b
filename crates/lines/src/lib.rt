// Lines of text laid into a lent destination, as far as there is room.
#![tactic(auto)]

mod fields;
mod heading;

ghost use Rattle.std.specs.Prelude.{[], ◌∷◌, ◌+◌, ◌%◌, ◌<◌};
ghost use Rattle.lines.specs.Text.{decimal};
ghost use Rattle.lines.specs.Decimals.{last_two};
ghost use Rattle.lines.specs.Laying.{Lays};

pub use fields::{put_number, put_word};
pub use heading::{put_script, put_script_refused};

// One byte; where the next one goes.
pub fn put_byte(out: &mut [u8], at: usize, b: u8) -> usize
    ensures { Lays out.old at (b ∷ []) out.new result }
{
    if at < out.len() {
        out[at] = b;
        at + 1
    } else {
        at
    }
}

// A text, byte by byte.
pub fn put(out: &mut [u8], at: usize, text: &[u8]) -> usize
    ensures { Lays out.old at text.now out.new result }
{
    let mut next = at;
    for b in text {
        next = put_byte(out, next, *b);
    }
    next
}

// The last decimal digit of a number.
fn put_digit(out: &mut [u8], at: usize, n: u64) -> usize
    ensures { Lays out.old at ((48 + n % 10) ∷ []) out.new result }
{
    put_byte(out, at, 48 + (n % 10) as u8)
}

// A number of one digit or two.
fn put_small(out: &mut [u8], at: usize, n: u64) -> usize
    requires { n < 100 }
    ensures { Lays out.old at (decimal n) out.new result }
{
    let one_digit = n < 10;
    if one_digit {
        return put_digit(out, at, n);
    }
    let next = put_digit(out, at, n / 10);
    put_digit(out, next, n)
}

// The last two decimal digits of a number.
fn put_two(out: &mut [u8], at: usize, n: u64) -> usize
    ensures { Lays out.old at (last_two n) out.new result }
{
    let next = put_digit(out, at, n / 10);
    put_digit(out, next, n)
}

// A number of up to four digits.
fn put_short(out: &mut [u8], at: usize, n: u64) -> usize
    requires { n < 10000 }
    ensures { Lays out.old at (decimal n) out.new result }
{
    if n < 100 {
        return put_small(out, at, n);
    }
    let next = put_small(out, at, n / 100);
    put_two(out, next, n)
}

// A number in decimal digits, with no leading zero: four digits at a time.
pub fn put_decimal(out: &mut [u8], at: usize, n: u64) -> usize
    ensures { Lays out.old at (decimal n) out.new result }
{
    if n < 10000 {
        return put_short(out, at, n);
    }
    let next = put_decimal(out, at, n / 10000);
    let last = put_two(out, next, n / 100);
    put_two(out, last, n)
}
