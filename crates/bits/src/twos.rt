// "48 bits, two's complement": a whole number as 48 bits, and back.
ghost use Rattle.std.specs.Prelude.{◌≡◌};
ghost use Rattle.bits.specs.Twos.{signed, unsigned};

// The whole number that 48 bits stand for; -1 for a number of more bits.
pub fn signed(v: u64) -> i64
    ensures { result ≡ signed v }
{
    let low = v < 140737488355328;
    if low {
        return v as i64;
    }
    if v < 281474976710656 {
        return v as i64 - 281474976710656;
    }
    -1
}

// The 48 bits that stand for a whole number; 0 for one below -2^48.
pub fn unsigned(z: i64) -> u64
    ensures { result ≡ unsigned z }
{
    let itself = 0 <= z;
    if itself {
        return z as u64;
    }
    if -281474976710656 <= z {
        return (z + 281474976710656) as u64;
    }
    0
}
