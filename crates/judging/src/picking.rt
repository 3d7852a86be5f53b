// Which word, by tests.
ghost use Rattle.std.specs.Prelude.{cond, ◌≡◌};
ghost use Rattle.judging.specs.Leaves.{truth_by, wholes};

// Of two words, the one for what is so, or the one for what is not. `words` has the same for itself (`either_word`), kept for reason (d): to share
// one line it would have to be a public function, with a contract that others rest on.
pub(crate) fn pick(so: bool, yes: u64, no: u64) -> u64
    ensures { result ≡ cond so yes no }
{
    if so { yes } else { no }
}

// Whether two words are those of whole numbers.
pub(crate) fn wholes(x: u64, y: u64) -> bool
    ensures { result ≡ wholes x y }
{
    (x >> 48 == 1) & (y >> 48 == 1)
}

// The word of a condition: true, false, or neither.
pub(crate) fn truth(holds: bool, fails: bool) -> u64
    ensures { result ≡ truth_by holds fails }
{
    if holds {
        3
    } else if fails {
        2
    } else {
        1
    }
}
