// A turn: as many records as are there, as long as there is room for their lines.
ghost use Rattle.std.specs.Prelude.{◌≡◌, ◌-◌, ◌≤◌, length, Err};
ghost use Rattle.monitor.specs.Keeping.{unsound};
ghost use Rattle.stream.specs.Records.{next_record};
ghost use Rattle.replaying.specs.Moving.{once_more, accepted_after, refused_after, new_player, move_room, Turned};
ghost use Rattle.replaying.specs.Turning.{NoWhole, Idle};

use crate::framing::{Record, record_at};
use crate::printing::{closing_lines, cut_line, refused_line};
use crate::{Player, Stage, Turn};
use refusals::Refusal;
use table::Table;

// Room enough for what any one move prints.
pub(crate) const MOVE_ROOM: usize = 8192;

// A player before the first byte of a stream.
pub fn new_player() -> Player
    ensures { result ≡ new_player }
{
    let started = monitor::start(Table::empty());
    Player {
        stage: Stage::Script,
        texts: [0; 4096],
        sizes: [0; Table::ENTRIES],
        monitor: started.monitor,
        accepted: 0,
        refused: 0,
    }
}

// How many steps were accepted after this answer; a number of 64 bits goes no further.
pub(crate) fn accepted_after(answer: Result<(), Refusal>, count: u64) -> u64
    ensures { result ≡ accepted_after answer count }
{
    match answer {
        Ok(()) => once_more(count),
        Err(_) => count,
    }
}

// How many were refused.
pub(crate) fn refused_after(answer: Result<(), Refusal>, count: u64) -> u64
    ensures { result ≡ refused_after answer count }
{
    match answer {
        Ok(()) => count,
        Err(_) => once_more(count),
    }
}

// One more counted.
fn once_more(count: u64) -> u64
    ensures { result ≡ once_more count }
{
    if count < u64::MAX {
        return count + 1;
    }
    count
}

impl Player {
    // No move: the player as it is.
    fn stays(self, over: bool, taken: usize, filled: usize) -> Turn
        ensures { result ≡ record { player = self; over = over; taken = taken; filled = filled } }
    {
        Turn {
            player: self,
            over,
            taken,
            filled,
        }
    }

    // The last lines, where the input has ended and there is room for them.
    pub(crate) fn close(
        self,
        input: &[u8],
        at: usize,
        ended: bool,
        out: &mut [u8],
        filled: usize,
    ) -> Turn
        requires { (at ≤ length input.now) × (filled ≤ length out.old) × Idle self input.now at (length out.old - filled) }
        ensures { Turned self ended input.now at out.old filled out.new result }
    {
        if !ended {
            return self.stays(false, at, filled);
        }
        if out.len() - filled < MOVE_ROOM {
            return self.stays(false, at, filled);
        }
        let next = closing_lines(out, filled, at < input.len(), self.accepted, self.refused);
        self.finished().stays(true, input.len(), next)
    }

    // Records from byte `from` on, as long as a whole one is there and room for its line, by a monitor that 29 stops: each is refused.
    fn refused_steps(
        self,
        input: &[u8],
        from: usize,
        ended: bool,
        out: &mut [u8],
        start: usize,
    ) -> Turn
        requires { (self.stage ≡ Stage.Steps) × (unsound self.monitor ≡ Err Refusal.Unsound) × (from ≤ length input.now) × (start ≤ length out.old) }
        ensures { Turned self ended input.now from out.old start out.new result }
    {
        let mut refused = self.refused;
        let mut at = from;
        let mut filled = start;
        // No index is counted: each record says where the next one begins, and the room that is left says when to stop.
        while out.len() - filled >= MOVE_ROOM {
            let Record::Whole(size) = record_at(input, at) else {
                break;
            };
            filled = refused_line(out, filled, Refusal::Unsound);
            refused = once_more(refused);
            at = at + 2 + size;
        }
        let player = Player { refused, ..self };
        player.close(input, at, ended, out, filled)
    }

    // Records from byte `from` on: 29 is tested once, and where it does not stop the monitor, the steps are taken in place.
    fn steps(self, input: &[u8], from: usize, ended: bool, out: &mut [u8], start: usize) -> Turn
        requires { (self.stage ≡ Stage.Steps) × (from ≤ length input.now) × (start ≤ length out.old) }
        ensures { Turned self ended input.now from out.old start out.new result }
    {
        match monitor::unsound(self.monitor) {
            Ok(()) => self.run_steps(input, from, ended, out, start),
            Err(_) => self.refused_steps(input, from, ended, out, start),
        }
    }

    // What follows a script: records, or nothing, where it was refused.
    fn follow(self, input: &[u8], at: usize, ended: bool, out: &mut [u8], filled: usize) -> Turn
        requires { (self.stage ≡ Stage.Script → ⊥) × (at ≤ length input.now) × (filled ≤ length out.old) }
        ensures { Turned self ended input.now at out.old filled out.new result }
    {
        match self.stage {
            Stage::Script => self.stays(false, at, filled),
            Stage::Steps => self.steps(input, at, ended, out, filled),
            Stage::Over => self.stays(true, at, filled),
        }
    }

    // The script, once it is wholly there, and then the records after it.
    fn begin(self, input: &[u8], ended: bool, out: &mut [u8]) -> Turn
        requires { self.stage ≡ Stage.Script }
        ensures { Turned self ended input.now 0 out.old 0 out.new result }
    {
        if out.len() < MOVE_ROOM {
            return self.stays(false, 0, 0);
        }
        let Record::Whole(size) = record_at(input, 0) else {
            return self.unopened(input, ended, out);
        };
        let end = 2 + size;
        let o = self.opened(&input[2..end], out);
        o.player.follow(input, end, ended, out, o.filled)
    }

    // "input that stops before the whole script is there prints `cut` and nothing else"
    fn unopened(self, input: &[u8], ended: bool, out: &mut [u8]) -> Turn
        requires { (self.stage ≡ Stage.Script) × NoWhole (next_record input.now) × (move_room ≤ length out.old) }
        ensures { Turned self ended input.now 0 out.old 0 out.new result }
    {
        if !ended {
            return self.stays(false, 0, 0);
        }
        let filled = cut_line(out, 0);
        self.finished().stays(true, input.len(), filled)
    }
}

// The lines of the bytes that are there, laid into `out`; `ended` says that no more will come.
pub fn play(p: Player, input: &[u8], ended: bool, out: &mut [u8]) -> Turn
    ensures { Turned p ended input.now 0 out.old 0 out.new result }
{
    match p.stage {
        Stage::Script => p.begin(input, ended, out),
        Stage::Steps => p.steps(input, 0, ended, out, 0),
        Stage::Over => p.stays(true, 0, 0),
    }
}
