// Eight bytes of a slice as one number, and where they stand so that a field is among them.
ghost use Rattle.std.specs.Prelude.{◌≡◌, ◌+◌, ◌-◌, ◌*◌, ◌≤◌, min, length};
ghost use Rattle.bits.specs.Bits.{bits_at};

// The first of eight bytes: byte `first`, or the eighth last where fewer than eight are left from there on.
pub(crate) fn base_of(len: usize, first: usize) -> usize
    requires { 8 ≤ len }
    ensures { result ≡ min first (len - 8) }
{
    let last = len - 8;
    if first <= last {
        return first;
    }
    last
}

// The number that the four bytes from byte `first` on make.
// Put together by hand: tried with `u64::from_be_bytes`, and bench (b) went from 350 ns to 404, above its mark.
fn four(s: &[u8], first: usize) -> u64
    requires { first + 4 ≤ length s.now }
    ensures { result ≡ bits_at s.now (8 * first) 32 }
{
    s[first] as u64 * 16777216
        + s[first + 1] as u64 * 65536
        + s[first + 2] as u64 * 256
        + s[first + 3] as u64
}

// The number that the eight bytes from byte `first` on make.
pub(crate) fn eight(s: &[u8], first: usize) -> u64
    requires { first + 8 ≤ length s.now }
    ensures { result ≡ bits_at s.now (8 * first) 64 }
{
    four(s, first) * 4294967296 + four(s, first + 4)
}
