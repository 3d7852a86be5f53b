// Runs document 01's operators on every row of their tables and at the ends of the number range, and prints a line for each.
#![tactic(auto)]

use std::io;

mod conditions;
mod numbering;
mod numbers;

fn main(rt: HostRuntime) -> io::Result<()> {
    conditions::all(&rt)?;
    numbers::all(&rt)?;
    numbering::all(&rt)
}
