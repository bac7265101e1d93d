// The open chain as a whole, and the power of every pair of words.
ghost use Rattle.std.specs.Prelude.{◌≡◌, ◌+◌, ◌*◌, ◌%◌, if◌then◌else◌, refl, to_bits};
ghost use Rattle.std.specs.Float.Ieee.{top};
ghost use Rattle.words.specs.Format.{ours};
ghost use Rattle.power.specs.NoNan.{Finishable, OpenPair};
ghost use Rattle.power.specs.Chain.{over_of, under_of, finish_of, huge_of, sign_of, open_of};
ghost use Rattle.power.specs.Power.{double, pow_of, single};
ghost use Rattle.pow.specs.Parts.{of, two};

use super::exponential::{exp2, product};
use super::logarithm::log_of;
use super::pair::Pair;
use super::steps::Chain;
use super::table::{HUGE, TINY};
use power::answer::{Fate, Sorted};
use power::sort::sort_pow;
use root::root::Root;
use scale::scaling::Scale;
use words::word::Word;

#[tactic(auto, unfolding(power::specs::Chain::over_of))]
fn over_flow<F: Chain>(sn: F) -> F
    ensures { F.value result ≡ over_of (of F.format F.width) (F.value sn) }
{
    sn * F::constant(HUGE) * F::constant(HUGE)
}

#[tactic(auto, unfolding(power::specs::Chain::under_of))]
fn under_flow<F: Chain>(sn: F) -> F
    ensures { F.value result ≡ under_of (of F.format F.width) (F.value sn) }
{
    sn * F::constant(TINY) * F::constant(TINY)
}

// What overflows, or underflows where `down` is set.
fn beyond<F: Chain>(sn: F, down: bool) -> F
    ensures { F.value result ≡ (if down then under_of (of F.format F.width) (F.value sn) else over_of (of F.format F.width) (F.value sn)) }
{
    if down { under_flow(sn) } else { over_flow(sn) }
}

// The sign of the result, 1 or -1.
#[tactic(auto, unfolding(power::specs::Chain::sign_of))]
fn sign<F: Chain>(negative: bool) -> F
    ensures { F.value result ≡ sign_of (of F.format F.width) negative }
{
    if negative { F::MINUS_ONE } else { F::ONE }
}

// A word, or that of the number with the other sign.
fn with_sign<F: Chain>(w: F::Word, negative: bool) -> F::Word
    ensures { F.Word.number result ≡ (if negative then (F.Word.number w + top F.format) % (2 * top F.format) else F.Word.number w) }
{
    if negative { F::negated(w) } else { w }
}

// The chain's end: the word of 2**(p_h + p_l) with the sign. Neither p_l + p_h nor, in range, 2 to it is a NaN.
fn finish<F: Chain>(p: Pair<F>, negative: bool) -> F::Word
    requires { Finishable (of F.format F.width) (two F.value p) }
    ensures { F.Word.number result ≡ to_bits F.format (finish_of (of F.format F.width) (two F.value p) (sign_of (of F.format F.width) negative)) }
{
    match F::fate_of(p.hi, p.lo) {
        Fate::Over => over_flow(sign::<F>(negative)).to_word(),
        Fate::Under => under_flow(sign::<F>(negative)).to_word(),
        Fate::Within => with_sign::<F>(exp2(p), negative),
    }
}

// The powers to a |y| above `must`: the result is positive, since such a y is even.
fn huge<F: Chain>(ix: u32, down: bool) -> F
    ensures { F.value result ≡ huge_of (of F.format F.width) ix down }
{
    if ix < F::limits().one {
        beyond(F::ONE, !down)
    } else {
        beyond(F::ONE, down)
    }
}

// An open power. Above `huge` it over- or underflows, unless x is close to one.
fn chain<F: Chain>(x: F::Word, y: F::Word, negative: bool) -> F::Word
    requires { OpenPair (ours F.format) (F.Word.number x) (F.Word.number y) }
    ensures { F.Word.number result ≡ open_of (of F.format F.width) (F.Word.number x) (F.Word.number y) negative }
{
    let limits = F::limits();
    let ix = F::high(x);
    let iy = F::high(y);
    let down = F::is_negative(y);
    if iy > limits.huge {
        if iy > limits.must {
            return huge::<F>(ix, down).to_word();
        }
        if ix < limits.less {
            return beyond(sign::<F>(negative), !down).to_word();
        }
        if ix > limits.more {
            return beyond(sign::<F>(negative), down).to_word();
        }
    }
    finish(product(F::from_bits(y), log_of(F::fabs(x), iy)), negative)
}

// x to the y.
pub fn raise<F: Chain + Root>(x: F::Word, y: F::Word) -> F::Word
    ensures { F.Word.number result ≡ pow_of (of F.format F.width) (F.Word.number x) (F.Word.number y) }
{
    match sort_pow::<F>(x, y) {
        Sorted::Settled(w) => w,
        Sorted::Open(negative) => chain::<F>(x, y, negative),
    }
}

pub trait Pow: Root + Scale + Chain {
    // Each word to the power of each.
    ghost pow: { Self.Word → Self.Word → Self.Word };

    fn pow(x: Self::Word, y: Self::Word) -> Self::Word
        ensures { result ≡ pow x y };

    ghost format_is: { Self.width.format ≡ Self.format };

    ghost pow_is: { (x y : Self.Word) → Self.Word.number (pow x y) ≡ pow_of Self.width (Self.Word.number x) (Self.Word.number y) };
}

impl Pow for f32 {
    ghost pow = { pow_of single };

    ghost format_is = { refl };

    ghost pow_is = { λ _ _. refl };

    fn pow(x: u32, y: u32) -> u32 {
        raise::<f32>(x, y)
    }
}

impl Pow for f64 {
    ghost pow = { pow_of double };

    ghost format_is = { refl };

    ghost pow_is = { λ _ _. refl };

    fn pow(x: u64, y: u64) -> u64 {
        raise::<f64>(x, y)
    }
}
