// Sums, differences, less and equal at the ends of the number range and of 64 bits.
use std::{fmt, io};
use values::{Number, Truth};

// -2^47 and 2^47-1
const LOW: i64 = -140737488355328;

const HIGH: i64 = 140737488355327;
// -2^63 and 2^63-1
const LEAST: i64 = -9223372036854775808;

const MOST: i64 = 9223372036854775807;

// A number under the name that it has in the lines.
#[derive(Clone, Copy)]
struct Named(Number);

impl fmt::Display for Named {
    fn fmt<W: fmt::Write>(&self, f: &mut fmt::Formatter<W>) -> fmt::Result {
        let Number::Whole(z) = self.0 else {
            return f.write_str("undefined");
        };
        f.write_str(match z {
            LEAST => "-2^63",
            -140737488355329 => "-2^47-1",
            LOW => "-2^47",
            -1 => "-1",
            0 => "0",
            1 => "1",
            3 => "3",
            HIGH => "2^47-1",
            140737488355328 => "2^47",
            MOST => "2^63-1",
            _ => "another number",
        })
    }
}

fn sum(rt: &impl Print, a: i64, b: i64) -> io::Result<()> {
    let (a, b) = (Number::Whole(a), Number::Whole(b));
    println!(rt; "{} + {}: {}", Named(a), Named(b), Named(a.sum(b)))
}

fn difference(rt: &impl Print, a: i64, b: i64) -> io::Result<()> {
    let (a, b) = (Number::Whole(a), Number::Whole(b));
    println!(rt; "{} - {}: {}", Named(a), Named(b), Named(a.difference(b)))
}

fn compared(rt: &impl Print, a: Number, b: Number) -> io::Result<()> {
    println!(rt; "{} less {}: {}", Named(a), Named(b), a.less(b))?;
    println!(rt; "{} equal {}: {}", Named(a), Named(b), a.equal(b))
}

fn in_range(rt: &impl Print, n: Number) -> io::Result<()> {
    println!(rt; "{} in range: {}", Named(n), Truth::from(n.in_range()))
}

fn sums(rt: &impl Print) -> io::Result<()> {
    for (a, b) in [
        (HIGH, 1),
        (HIGH, 0),
        (LOW, -1),
        (LOW, HIGH),
        (MOST, MOST),
        (LEAST, LEAST),
        (MOST, LEAST),
        (LEAST, MOST),
    ] {
        sum(rt, a, b)?;
    }
    Ok(())
}

fn differences(rt: &impl Print) -> io::Result<()> {
    for (a, b) in [
        (LOW, 1),
        (0, LOW),
        (-1, LOW),
        (0, HIGH + 1),
        (HIGH, HIGH),
        (MOST, LEAST),
        (LEAST, MOST),
        (LEAST, LEAST),
        (MOST, MOST),
    ] {
        difference(rt, a, b)?;
    }
    Ok(())
}

fn comparisons(rt: &impl Print) -> io::Result<()> {
    compared(rt, Number::Undefined, Number::Whole(3))?;
    compared(rt, Number::Whole(3), Number::Undefined)?;
    compared(rt, Number::Undefined, Number::Undefined)?;
    for (a, b) in [(LOW, HIGH), (HIGH, LOW), (LOW, LOW), (HIGH, HIGH), (-1, 0)] {
        compared(rt, Number::Whole(a), Number::Whole(b))?;
    }
    Ok(())
}

fn ranges(rt: &impl Print) -> io::Result<()> {
    in_range(rt, Number::Undefined)?;
    for z in [HIGH, HIGH + 1, LOW, LOW - 1, MOST, LEAST] {
        in_range(rt, Number::Whole(z))?;
    }
    Ok(())
}

pub fn all(rt: &impl Print) -> io::Result<()> {
    sums(rt)?;
    differences(rt)?;
    comparisons(rt)?;
    ranges(rt)
}
