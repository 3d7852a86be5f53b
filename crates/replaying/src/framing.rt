// Records of a stream: a 16-bit length, most significant byte first, and as many bytes.
ghost use Rattle.std.specs.Prelude.{◌≤◌, length};
ghost use Rattle.replaying.specs.Framing.{Framed};

// What stands at a place: the end of the input, a record or length that stops inside, or a whole record of so many bytes.
#[derive(Clone, Copy)]
pub(crate) enum Record {
    End,
    Stops,
    Whole(usize),
}

// "a 16-bit length and [the bytes] (lengths most significant byte first)"
pub(crate) fn record_at(input: &[u8], at: usize) -> Record
    requires { at ≤ length input.now }
    ensures { Framed input.now at result }
{
    let left = input.len() - at;
    if left == 0 {
        return Record::End;
    }
    if left == 1 {
        return Record::Stops;
    }
    let high = input[at] as usize;
    let low = input[at + 1] as usize;
    let size = high * 256 + low;
    if left - 2 < size {
        return Record::Stops;
    }
    Record::Whole(size)
}
