// Where a stream comes from: standard input or a file, read as it comes.
ghost use Rattle.std.specs.Prelude.{false, ◌⊎◌, ◌≡◌, ◌-◌, ◌≤◌, length, take, drop, None, IsTrue};
ghost use Rattle.std.specs.Io.KnownBytes.{Consumes, IsAtEnd};
ghost use Rattle.std.proofs.Math.Seq.{paste};
ghost use Rattle.replay.specs.Refilling.{Refilled};

use std::env::FillError;
use std::io::Read;
use std::rt::{Env, Files};
use std::{fs, io, str};

// Standard input, or a file.
#[derive(Drop)]
pub(crate) enum Source<S, F> {
    Input(S),
    File(F),
}

impl<S: Read, F: Read> Read for Source<S, F> {
    fn read(&mut self, buf: &mut [u8]) -> io::Result<usize> {
        match self {
            Source::Input(input) => input.read(buf),
            Source::File(file) => file.read(buf),
        }
    }
}

// The input after a read: how many bytes it holds, whether it has ended, and what the read failed with.
#[derive(Drop)]
pub(crate) struct Held {
    pub(crate) have: usize,
    pub(crate) ended: bool,
    pub(crate) failed: Option<io::Error>,
}

// Room for any path.
fn path_room() -> [u8; 4096]
    ensures { 4096 ≡ length result }
{
    [0; 4096]
}

// Standard input, or the file that the one argument names; none where there is no such file, with a line that says so.
pub(crate) fn opened<R: Env + Files + Input + Eprint>(
    rt: &R,
) -> Option<Source<R::Reader, R::File>> {
    let mut path = path_room();
    let length = match rt.arg(1, &mut path) {
        Ok(length) => length,
        Err(FillError::NotPresent) => return Some(Source::Input(rt.reader())),
        Err(FillError::TooLong) => {
            let _ = eprintln!(rt; "replay: file name: too long");
            return None;
        }
    };
    let Ok(path) = str::from_utf8(&path[..length]) else {
        let _ = eprintln!(rt; "replay: file name: not UTF-8");
        return None;
    };
    match fs::open(rt, path) {
        Ok(file) => Some(Source::File(file)),
        Err(e) => {
            let _ = eprintln!(rt; "{path}: {e}");
            None
        }
    }
}

// The bytes from `taken` up to `have` moved to the front; how many they are.
fn keep(input: &mut [u8], taken: usize, have: usize) -> usize
    requires { (taken ≤ have) × (have ≤ length input.old) }
    ensures value { result ≡ have - taken }
    ensures input_after { input.new ≡ paste input.old 0 (drop taken input.old) (have - taken) }
{
    input.copy_within(taken..have, 0);
    have - taken
}

// Nothing is read.
fn unread(have: usize, ended: bool) -> Held
    ensures { result ≡ record { have = have; ended = ended; failed = None } }
{
    Held {
        have,
        ended,
        failed: None,
    }
}

// One read after the first `have` bytes, unless the input has ended. No room is not the end.
fn more<R: Read>(source: &mut R, ended: bool, input: &mut [u8], have: usize) -> Held
    requires { have ≤ length input.old }
    ensures held { Refilled input.old 0 have ended input.new result }
    ensures bytes { Consumes (R.remaining source.old) (R.remaining source.new) (drop have (take result.have input.new)) }
    ensures end { IsTrue result.ended → IsTrue ended ⊎ IsAtEnd (R.remaining source.new) }
{
    if ended {
        return unread(have, true);
    }
    if have == input.len() {
        return unread(have, false);
    }
    match source.read(&mut input[have..]) {
        Ok(count) => Held {
            have: have + count,
            ended: count == 0,
            failed: None,
        },
        Err(e) => Held {
            have,
            ended: false,
            failed: Some(e),
        },
    }
}

// What was not taken is kept, and more is read after it.
pub(crate) fn refill<R: Read>(
    source: &mut R,
    ended: bool,
    input: &mut [u8],
    taken: usize,
    have: usize,
) -> Held
    requires { (taken ≤ have) × (have ≤ length input.old) }
    ensures held { Refilled input.old taken have ended input.new result }
    ensures bytes { Consumes (R.remaining source.old) (R.remaining source.new) (drop (have - taken) (take result.have input.new)) }
    ensures end { IsTrue result.ended → IsTrue ended ⊎ IsAtEnd (R.remaining source.new) }
{
    let kept = keep(input, taken, have);
    more(source, ended, input, kept)
}
