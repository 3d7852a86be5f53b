// The bytes that a field touches, as one number, and whether they are there.
ghost use Rattle.std.specs.Prelude.{◌≡◌, ◌&&◌, ◌+◌, ◌*◌, ◌≤◌, leb, length};
ghost use Rattle.bits.specs.Bits.{widest, bits_at};

use crate::wide::eight;

// Whether a field of w bits from bit `at` on ends within `len` bytes, and is no wider than the widest.
pub(crate) fn has_room(len: usize, at: usize, w: usize) -> bool
    ensures { result ≡ (leb w widest && leb (at + w) (8 * len)) }
{
    let first = at / 8;
    let used = at % 8;
    if 48 < w {
        return false;
    }
    if len < first {
        return false;
    }
    let left = len - first;
    if 7 <= left {
        return true;
    }
    used + w <= 8 * left
}

// The number that `count` bytes make from byte `first` on, at most eight of them.
pub(crate) fn window_of(s: &[u8], first: usize, count: usize) -> u64
    requires { (count ≤ 8) × (first + count ≤ length s.now) }
    ensures { result ≡ bits_at s.now (8 * first) (8 * count) }
{
    if count == 8 {
        return eight(s, first);
    }
    let mut number: u64 = 0;
    for i in 0..count {
        number = number * 256 + s[first + i] as u64;
    }
    number
}
