// Records played in place: the monitor stands as words while a turn lasts.
ghost use Rattle.std.specs.Prelude.{◌≡◌, ◌≤◌, length, Ok};
ghost use Rattle.monitor.specs.Keeping.{unsound};
ghost use Rattle.replaying.specs.declared.Stage.{Stage};
ghost use Rattle.replaying.specs.Moving.{Turned};

use crate::framing::{Record, record_at};
use crate::turning::{MOVE_ROOM, accepted_after, refused_after};
use crate::{Player, Turn};
use inplace::take;
use table::Table;
use words::{monitor_in, pack};

impl Player {
    // Records from byte `from` on, as long as a whole one is there and room for its lines, by a monitor that 29 does not stop.
    pub(crate) fn run_steps(
        self,
        input: &[u8],
        from: usize,
        ended: bool,
        out: &mut [u8],
        start: usize,
    ) -> Turn
        requires { (self.stage ≡ Stage.Steps) × (unsound self.monitor ≡ Ok tt) × (from ≤ length input.now) × (start ≤ length out.old) }
        ensures { Turned self ended input.now from out.old start out.new result }
    {
        let n = self.monitor.table.n;
        let mut state = [0u64; 452];
        pack(self.monitor, &mut state);
        let mut results = [0u64; Table::ENTRIES];
        let mut accepted = self.accepted;
        let mut refused = self.refused;
        let mut at = from;
        let mut filled = start;
        // No index is counted: each record says where the next one begins, and the room that is left says when to stop.
        while out.len() - filled >= MOVE_ROOM {
            let Record::Whole(size) = record_at(input, at) else {
                break;
            };
            let first = at + 2;
            let end = first + size;
            let answer = take(&mut state, &input[first..end], &mut results);
            filled = self.answer_lines(out, filled, answer, &results, state[3], n);
            accepted = accepted_after(answer, accepted);
            refused = refused_after(answer, refused);
            at = end;
        }
        let player = Player {
            monitor: monitor_in(&state),
            accepted,
            refused,
            ..self
        };
        player.close(input, at, ended, out, filled)
    }
}
