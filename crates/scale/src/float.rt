// Scaling of floats at each width: by multiplications, at most two long steps and a clamped last one.
ghost use Rattle.std.specs.Prelude.{◌≡◌, ◌↔◌, ◌-◌, suc, pos, negsuc, true, IsTrue};
ghost use Rattle.std.specs.Float.Ieee as Ieee;
ghost use Rattle.scale.specs.Scale.{power};
ghost use Rattle.scale.specs.Steps.{Normal, fall, step_float, step_left};

use words::width::Width;
use words::word::Word;

// The largest exponent of a normal number: 127 or 1023.
pub fn most<F: Width>() -> i32
    ensures { result ≡ pos (Ieee.emax F.format) }
{
    F::format().emax() as i32
}

// The least one: -126 or -1022.
pub fn least<F: Width>() -> i32
    ensures { result ≡ negsuc (Ieee.emax F.format - 2) }
{
    1 - most::<F>()
}

// Whether n is an exponent of a normal number.
pub fn is_normal<F: Width>(n: i32) -> bool
    ensures { IsTrue result ↔ Normal F.format n }
{
    least::<F>() <= n && n <= most::<F>()
}

// A long step downward is by this many places, 102 or 969: so long that what the last step leaves can
// only be zero if this one had to round.
fn down<F: Width>() -> i32
    ensures { result ≡ pos (suc (fall F.format)) }
{
    most::<F>() - 1 - F::format().digits() as i32
}

// 2^n for a normal exponent n: the exponent's field alone.
pub fn power<F: Width>(n: i32) -> F
    requires { Normal F.format n }
    ensures { F.value result ≡ power n }
{
    let field = (most::<F>() + n) as u64;
    F::from_bits(F::Word::narrow(field << (F::format().digits() - 1)))
}

// y times 2^n is what is left to do.
#[derive(Clone, Copy)]
pub struct Stepped<F> {
    pub y: F,
    pub n: i32,
}

// One long step toward the normal exponents, where n is past them.
fn step<F: Width>(x: F, n: i32) -> Stepped<F>
    ensures y_value { F.value result.y ≡ step_float F.format (F.value x) n }
    ensures n_value { result.n ≡ step_left F.format n }
{
    if n > most::<F>() {
        Stepped {
            y: x * power(most::<F>()),
            n: n - most::<F>(),
        }
    } else if n < least::<F>() {
        Stepped {
            y: x * power(-down::<F>()),
            n: n + down::<F>(),
        }
    } else {
        Stepped { y: x, n }
    }
}

// x times 2^n for an n past the normal exponents: two long steps and a clamped last one.
fn far<F: Width>(x: F, n: i32) -> F
    requires { Ieee.fits F.format (F.value x) ≡ true }
    ensures { F.value result ≡ Ieee.mul F.format (F.value x) (power n) }
{
    let a = step(x, n);
    let b = step(a.y, a.n);
    b.y * power(b.n.clamp(least::<F>(), most::<F>()))
}

// x times 2^n, rounded once, for an x that is a float of the format.
pub fn scale<F: Width>(x: F, n: i32) -> F
    requires { Ieee.fits F.format (F.value x) ≡ true }
    ensures { F.value result ≡ Ieee.mul F.format (F.value x) (power n) }
{
    if is_normal::<F>(n) {
        x * power(n)
    } else {
        far(x, n)
    }
}
