// Taking a field of up to 48 bits from bytes, by shifts and masks.
ghost use Rattle.std.specs.Prelude.{◌≡◌, ◌+◌, ◌*◌, ◌≤◌, length};
ghost use Rattle.bits.specs.Bits.{bits_at, field_at};

use crate::wide::{base_of, eight};
use crate::window::{has_room, window_of};

// The field of `w` bits from bit `at` on, in few bytes: the bytes that it touches, without the bits after it and before it.
fn taken_short(s: &[u8], at: usize, w: usize) -> u64
    requires { (w ≤ 48) × (at + w ≤ 8 * length s.now) }
    ensures { result ≡ bits_at s.now at w }
{
    let first = at / 8;
    let used = at % 8;
    let count = (used + w + 7) / 8;
    let after = 8 * count - used - w;
    let number = window_of(s, first, count);
    (number >> after) & ((1u64 << w) - 1)
}

// The same field, in eight bytes or more: a window of eight that holds it. A field of no bits may have all 64 after it, and is 0 at any shift.
// Two functions: tried as one (as `put_there` is), and bench (b) went from 350 ns to 425, above its mark.
fn taken_wide(s: &[u8], at: usize, w: usize) -> u64
    requires { (w ≤ 48) × ((at + w ≤ 8 * length s.now) × (8 ≤ length s.now)) }
    ensures { result ≡ bits_at s.now at w }
{
    let base = base_of(s.len(), at / 8);
    let used = at - 8 * base;
    let after = (64 - used - w) % 64;
    let window = eight(s, base);
    (window >> after) & ((1u64 << w) - 1)
}

// The field of `w` bits from bit `at` on.
fn taken(s: &[u8], at: usize, w: usize) -> u64
    requires { (w ≤ 48) × (at + w ≤ 8 * length s.now) }
    ensures { result ≡ bits_at s.now at w }
{
    if 8 <= s.len() {
        return taken_wide(s, at, w);
    }
    taken_short(s, at, w)
}

// The field of `w` bits from bit `at` on, or the answer that it isn't wholly there.
pub fn field_at(s: &[u8], at: usize, w: usize) -> Option<u64>
    ensures { result ≡ field_at s.now at w }
{
    if has_room(s.len(), at, w) {
        Some(taken(s, at, w))
    } else {
        None
    }
}

// The field that byte `i` is, or the answer that it isn't there.
pub fn byte_at(s: &[u8], i: usize) -> Option<u64>
    ensures { result ≡ field_at s.now (8 * i) 8 }
{
    if s.len() <= i {
        return None;
    }
    Some(s[i] as u64)
}
