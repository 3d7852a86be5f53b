// Shows, for the script on standard input, what each of its alarms and properties reaches.
#![tactic(auto)]

ghost use Rattle.std.specs.Prelude.{IfSome, OnOk};
ghost use Rattle.std.specs.Io.KnownBytes.{Appends};
ghost use Rattle.inspection.specs.Inspected.{inspected};

use casebook::read_full;
use std::io;
use std::io::{Read, Write};

// What the output is given for the bytes that the input has.
fn show<R: Read, W: Write>(input: &mut R, output: &mut W) -> io::Result<()>
    ensures { OnOk result (IfSome (R.remaining input.old)
        (λ script. Appends (W.contents output.old) (W.contents output.new) (inspected script))) }
{
    // room for a script, and for one byte more, which shows that the input is too long
    let mut script = [0; 4097];
    let n = read_full(input, &mut script)?;
    // room for the lines of any script
    let mut shown = [0; 98304];
    let m = inspection::lines(&script[..n], &mut shown);
    output.write_all(&shown[..m])
}

fn main(rt: HostRuntime) -> io::Result<()> {
    show(&mut rt.stdin(), &mut rt.stdout())
}
