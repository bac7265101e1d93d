// The two halves of an f64's word. None of the numbers is a NaN.
ghost use Rattle.std.specs.Prelude.{◌≡◌, ◌+◌, ◌*◌, ◌/◌, ◌%◌, ◌^◌, not, T};
ghost use Rattle.std.specs.Float.Ieee as Ieee;
ghost use Rattle.power.specs.NoNan.{Number};

pub fn get_high_word(x: f64) -> u32
    requires { Number x }
    ensures { result ≡ Ieee.to_bits Ieee.binary64 x / 2 ^ 32 }
{
    (f64::to_bits(x) >> 32) as u32
}

pub fn with_set_high_word(f: f64, hi: u32) -> f64
    requires { Number f × T (not (Ieee.nan_bits Ieee.binary64 (hi * 2 ^ 32 + Ieee.to_bits Ieee.binary64 f % 2 ^ 32))) }
    ensures { result ≡ Ieee.of_bits Ieee.binary64 (hi * 2 ^ 32 + Ieee.to_bits Ieee.binary64 f % 2 ^ 32) }
{
    f64::from_bits((f64::to_bits(f) & 0xffffffff) | ((hi as u64) << 32))
}

pub fn with_set_low_word(f: f64, lo: u32) -> f64
    requires { Number f × T (not (Ieee.nan_bits Ieee.binary64 (Ieee.to_bits Ieee.binary64 f / 2 ^ 32 * 2 ^ 32 + lo))) }
    ensures { result ≡ Ieee.of_bits Ieee.binary64 (Ieee.to_bits Ieee.binary64 f / 2 ^ 32 * 2 ^ 32 + lo) }
{
    f64::from_bits((f64::to_bits(f) & 0xffffffff00000000) | (lo as u64))
}
