// The script of a stream: its line, and the player that has it.
ghost use Rattle.std.specs.Prelude.{◌≡◌};
ghost use Rattle.script.specs.Reader.{script_of};
ghost use Rattle.lines.specs.Laying.{Lays};
ghost use Rattle.replaying.specs.Moving.{begun, finished, opening_line, opened_by};

use crate::texts::{Texts, texts_of};
use crate::{Player, Stage};
use table::Table;

// A player after a script, and how many bytes of the output are filled.
#[derive(Clone, Copy)]
pub(crate) struct Opening {
    pub(crate) player: Player,
    pub(crate) filled: usize,
}

impl Player {
    // A player that has printed all its lines.
    pub(crate) fn finished(self) -> Player
        ensures { result ≡ finished self }
    {
        Player {
            stage: Stage::Over,
            ..self
        }
    }

    // A player that has its script, and no step yet.
    fn begun(script: &[u8], t: Table) -> Player
        ensures { result ≡ begun script.now t }
    {
        let Texts { texts, sizes } = texts_of(script);
        let started = monitor::start(t);
        Player {
            stage: Stage::Steps,
            texts,
            sizes,
            monitor: started.monitor,
            accepted: 0,
            refused: 0,
        }
    }

    // "The first line gives n."; "a refused script prints `script refused` and its number and nothing else"
    pub(crate) fn opened(self, script: &[u8], out: &mut [u8]) -> Opening
        ensures player { result.player ≡ opened_by self script.now (script_of script.now) }
        ensures line { Lays out.old 0 (opening_line (script_of script.now)) out.new result.filled }
    {
        let read = reader::read(script);
        match read.answer {
            Ok(()) => {
                Opening {
                    player: Player::begun(script, read.table),
                    filled: lines::put_script(out, 0, read.table.n),
                }
            }
            Err(r) => Opening {
                player: self.finished(),
                filled: lines::put_script_refused(out, 0, r),
            },
        }
    }
}
