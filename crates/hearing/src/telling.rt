// What a report tells, as a word.
ghost use Rattle.std.specs.Prelude.{◌≡◌, ◌<◌, ◌^◌};
ghost use Rattle.values.specs.declared.Number as numbers;
ghost use Rattle.bits.specs.Twos.{signed};
ghost use Rattle.words.specs.Words.{number_word, told_word};

use crate::Word;
use step::Telling;

// The word of the number that 48 bits stand for.
fn value_word(v: u64) -> u64
    requires { v < 2 ^ 48 }
    ensures { result ≡ number_word (numbers.Number.Whole (signed v)) }
{
    if v < 140737488355328 {
        v + 422212465065984
    } else {
        v + 140737488355328
    }
}

// The words of what is told.
impl Telling for Word {
    ghost form = { λ told. record { word = told_word told } };

    // "00 false, 01 true, 10 undefined"
    fn condition(code: u64) -> Word {
        let word = match code {
            0 => 2,
            1 => 3,
            _ => 1,
        };
        Word { word }
    }

    fn event() -> Word {
        Word { word: 4 }
    }

    fn valued(bits: u64) -> Word {
        Word {
            word: value_word(bits),
        }
    }
}
