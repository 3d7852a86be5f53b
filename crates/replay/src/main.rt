// Plays a recorded stream, a script and then steps, from standard input or from the file that its argument names.
#![tactic(auto)]

mod source;

ghost use Rattle.std.specs.Prelude.{◌≡◌, ◌^◌, ◌<◌, length, IfSome, OnOk};
ghost use Rattle.std.specs.Io.KnownBytes.{Appends};
ghost use Rattle.stream.specs.Replay.{replayed};

use source::{opened, refill};
use std::io::{Error, Read, Write};
use std::process::ExitCode;

// Room for the longest record, and for as much again, so that a stream is read in large pieces.
fn input_room() -> [u8; 131072]
    ensures { 131072 ≡ length result }
{
    [0; 131072]
}

// Room for the lines of a turn, so that they are written in large pieces.
fn output_room() -> [u8; 65536]
    ensures { 65536 ≡ length result }
{
    [0; 65536]
}

// Why a stream was not played to its end.
#[derive(Drop)]
enum Failure {
    Read(Error),
    Write(Error),
    Turns,
}

// Piece after piece: what is there is played, its lines are written, what is left is kept, and more is read.
// A proved loop has to end, and nothing says that a stream does: so it counts its turns down, from a number that no run uses up.
fn play_all<R: Read, W: Write>(source: &mut R, output: &mut W) -> Result<(), Failure>
    ensures { OnOk result (IfSome (R.remaining source.old)
        (λ stream. length stream < 2 ^ 64 → Appends (W.contents output.old) (W.contents output.new) (replayed stream))) }
{
    let mut input = input_room();
    let mut out = output_room();
    let mut player = replaying::new_player();
    let mut have: usize = 0;
    let mut ended = false;
    let mut turns = u64::MAX;
    while turns > 0 {
        let t = replaying::play(player, &input[..have], ended, &mut out);
        if let Err(e) = output.write_all(&out[..t.filled]) {
            return Err(Failure::Write(e));
        }
        let over = t.over;
        if over {
            return Ok(());
        }
        let held = refill(source, ended, &mut input, t.taken, have);
        if let Some(e) = held.failed {
            return Err(Failure::Read(e));
        }
        have = held.have;
        ended = held.ended;
        player = t.player;
        turns -= 1;
    }
    Err(Failure::Turns)
}

fn main(rt: HostRuntime) -> ExitCode {
    let Some(mut source) = opened(&rt) else {
        return ExitCode::FAILURE;
    };
    let Err(failure) = play_all(&mut source, &mut rt.stdout()) else {
        return ExitCode::SUCCESS;
    };
    let _ = match failure {
        Failure::Read(e) => eprintln!(rt; "replay: read: {e}"),
        Failure::Write(e) => eprintln!(rt; "replay: write: {e}"),
        Failure::Turns => return ExitCode::SUCCESS,
    };
    ExitCode::FAILURE
}
