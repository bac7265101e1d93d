// A positive finite operand's parts: W, of p or p + 1 digits, and E, its exponent of 4.
ghost use Rattle.std.specs.Prelude.{◌≡◌, ◌*◌, ◌^◌, ◌<◌, ◌≤◌};
ghost use Rattle.std.proofs.Math.IntN.{sub_ℕ};
ghost use Rattle.std.specs.Int.Signed.{shr_z};
ghost use Rattle.words.specs.Format.{units, infinity};
ghost use Rattle.root.specs.Root.{lifted, whole, exponent_of};
ghost use Rattle.root.specs.Engine.{Shifts, odd_z};

use words::format::Format;

// w * 2^(1-p) * 4^half
#[derive(Clone, Copy)]
pub struct Parts {
    pub w: u64,
    pub half: i32,
}

impl Parts {
    // W and E of a positive finite word x.
    pub fn of(f: Format, x: u64) -> Parts
        requires { (0 < x) × (x < infinity f) }
        ensures w_value { result.w ≡ whole f.digits (lifted f (units f x)) }
        ensures half_value { result.half ≡ exponent_of f (lifted f (units f x)) }
    {
        let p = f.digits();
        let hid = f.hid();
        let field = (x >> (p - 1)) as u32;
        let t = x & (hid - 1);
        if field == 0 {
            let s = shift_up(t, p);
            halve(t << s, unbiased(1, f.emax() + s))
        } else {
            halve(hid + t, unbiased(field, f.emax()))
        }
    }
}

// How far m is to be shifted up to have p digits; a number of p digits has 64 - p leading zeros.
pub fn shift_up(m: u64, p: u32) -> u32
    requires { (0 < m) × (m < 2 ^ p) × (p ≤ 60) }
    ensures { Shifts p m result }
{
    u64::leading_zeros(m) - (64 - p)
}

// n less b, with its sign.
fn unbiased(n: u32, b: u32) -> i32
    requires { (n < 8192) × (b < 8192) }
    ensures { result ≡ sub_ℕ n b }
{
    n as i32 - b as i32
}

// The exponent e halved downward; the significand takes what is left.
fn halve(m: u64, e: i32) -> Parts
    requires { m < 2 ^ 62 }
    ensures w_value { result.w ≡ m * 2 ^ odd_z e }
    ensures half_value { result.half ≡ shr_z e 2 }
{
    let w = if e % 2 != 0 { m + m } else { m };
    Parts { w, half: e >> 1 }
}
