// The lines of a step that was taken in place, by the words of its results.
ghost use Rattle.std.specs.Prelude.{◌≡◌, ◌-◌, ◌<◌, ◌≤◌, get_or};
ghost use Rattle.lines.specs.Laying.{Lays};
ghost use Rattle.stream.specs.Lines.{result_line};
ghost use Rattle.stream.specs.Replay.{row_lines};
ghost use Rattle.replaying.specs.Moving.{text_kept};
ghost use Rattle.replaying.specs.Rows.{printed, answer_lines};

use crate::Player;
use crate::printing::{refused_line, word_line};
use crate::texts::text_of;
use refusals::Refusal;
use table::Table;

impl Player {
    // The text of entry k's label.
    fn label(&self, k: usize) -> &[u8]
        requires { k < 128 }
        ensures { result.now ≡ text_kept self.now.texts self.now.sizes k }
    {
        text_of(&self.texts, k, self.sizes[k])
    }

    // The line of a result by its word: 10 is an alarm that is raised, 12 a property that is violated; any other has no line.
    fn printed_line(&self, out: &mut [u8], at: usize, time: u64, k: usize, w: u64) -> usize
        requires { k < 128 }
        ensures { Lays out.old at (result_line time k (text_kept self.now.texts self.now.sizes k) (printed w)) out.new result }
    {
        let raised = w == 10;
        if raised {
            return word_line(out, at, time, b"alarm", k, self.label(k));
        }
        let violated = w == 12;
        if violated {
            return word_line(out, at, time, b"violated", k, self.label(k));
        }
        at
    }

    // The lines of the first n results, "in ... entry order".
    fn printed_rows(
        &self,
        out: &mut [u8],
        start: usize,
        results: &[u64; Table::ENTRIES],
        time: u64,
        n: usize,
    ) -> usize
        requires { n ≤ 128 }
        ensures { Lays out.old start (row_lines (text_kept self.now.texts self.now.sizes) time (λ k. printed (get_or results.now k 0)) n) out.new result }
    {
        let mut at = start;
        for k in 0..n {
            at = self.printed_line(out, at, time, k, results[k]);
        }
        at
    }

    // What is printed of a step's answer and the words of its results; a kept time is one more than the time.
    pub(crate) fn answer_lines(
        &self,
        out: &mut [u8],
        at: usize,
        answer: Result<(), Refusal>,
        results: &[u64; Table::ENTRIES],
        last: u64,
        n: usize,
    ) -> usize
        requires { n ≤ 128 }
        ensures { Lays out.old at (answer_lines (text_kept self.now.texts self.now.sizes) answer (last - 1) (λ k. printed (get_or results.now k 0)) n) out.new result }
    {
        match answer {
            Ok(()) => {
                if last == 0 {
                    return self.printed_rows(out, at, results, 0, n);
                }
                self.printed_rows(out, at, results, last - 1, n)
            }
            Err(r) => refused_line(out, at, r),
        }
    }
}
