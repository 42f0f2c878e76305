ghost use Rattle.std.specs.Prelude.{◌≡◌, ◌+◌, ◌*◌, ◌-◌, ◌^◌, ◌<◌, ◌&&◌, nat_le, IsTrue};

/// The value with one decimal digit more, of so many before it.
pub fn with_digit(value: u32, count: usize, digit: u8) -> u32
    requires small { value < 10 ^ count }
    requires few { count < 9 }
    requires digit { IsTrue (nat_le 48 digit && nat_le digit 57) }
    ensures value { result ≡ 10 * value + (digit - 48) }
    ensures fits { result < 10 ^ (count + 1) }
{
    10 * value + (digit - b'0') as u32
}
