// Every row of table 4.2, and of "and" and "implies".
use std::io;
use values::Truth;

const TRUTHS: [Truth; 3] = [Truth::Undefined, Truth::False, Truth::True];

// A line for each pair of operands.
fn table<F: Fn(Truth, Truth) -> Truth>(rt: &impl Print, word: &str, operator: F) -> io::Result<()>
    requires { F.IsAlwaysCallable operator }
{
    for a in TRUTHS {
        for b in TRUTHS {
            println!(rt; "{a} {word} {b}: {}", operator(a, b))?;
        }
    }
    Ok(())
}

pub fn all(rt: &impl Print) -> io::Result<()> {
    for a in TRUTHS {
        println!(rt; "not {a}: {}", a.not())?;
    }
    for a in TRUTHS {
        println!(rt; "defined {a}: {}", a.defined())?;
    }
    table(rt, "or", |a, b| a.or(b))?;
    table(rt, "and", |a, b| a.and(b))?;
    table(rt, "implies", |a, b| a.implies(b))
}
