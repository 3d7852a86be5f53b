// A field put into bytes that are there already: its bits change, and no others.
ghost use Rattle.std.specs.Prelude.{◌≡◌, ◌+◌, ◌*◌, ◌≤◌, length};
ghost use Rattle.bits.specs.Putting.{put_at};
ghost use Rattle.bits.specs.Window.{replaced, byte_of, stored};

use crate::window::{has_room, window_of};

// The window with v's low w bits before its last `spare` bits.
fn replace(window: u64, w: usize, spare: usize, v: u64) -> u64
    requires { (w ≤ 48) × ((spare ≤ 63) × (w + spare ≤ 64)) }
    ensures { result ≡ replaced window w spare v }
{
    let before = (window >> spare) >> w;
    let with = (before << w) + v % (1 << w);
    (with << spare) + window % (1 << spare)
}

// The eight bytes of a window, stored from byte `first` on.
fn store_eight(s: &mut [u8], first: usize, window: u64)
    requires { first + 8 ≤ length s.old }
    ensures { s.new ≡ stored s.old first (byte_of window 8) 8 }
{
    s[first..first + 8].copy_from_slice(&window.to_be_bytes());
}

// The window's bytes, at most eight of them, stored from byte `first` on.
fn store(s: &mut [u8], first: usize, count: usize, window: u64)
    requires { (count ≤ 8) × (first + count ≤ length s.old) }
    ensures { s.new ≡ stored s.old first (byte_of window count) count }
{
    if count == 8 {
        return store_eight(s, first, window);
    }
    for i in 0..count {
        s[first + i] = ((window >> (8 * (count - 1 - i))) % 256) as u8;
    }
}

// A field that has room: the window that holds it is taken, changed and stored.
// A field of no bits may have all 64 after it, and changes none at any place.
fn put_there(s: &mut [u8], at: usize, w: usize, v: u64)
    requires { (w ≤ 48) × (at + w ≤ 8 * length s.old) }
    ensures { s.new ≡ put_at s.old at w v }
{
    let count = s.len().min(8);
    let base = (at / 8).min(s.len() - count);
    let used = at - 8 * base;
    let spare = (8 * count - used - w) % 64;
    let window = window_of(s, base, count);
    store(s, base, count, replace(window, w, spare, v));
}

// "Fields are packed without gaps, most significant bit first": v's low w bits from bit `at` on, if there is room.
pub fn put(s: &mut [u8], at: usize, w: usize, v: u64)
    ensures { s.new ≡ put_at s.old at w v }
{
    if has_room(s.len(), at, w) {
        put_there(s, at, w, v);
    }
}
