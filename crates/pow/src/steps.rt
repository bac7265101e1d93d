// What the open chain asks of a width: its numbers, and the steps that work on the bits of words.
ghost use Rattle.std.specs.Prelude.{◌≡◌, ℕ, ◌+◌, ◌*◌, ◌/◌, ◌%◌, ◌^◌, ◌<◌, ◌≤◌, IfSome, IsNone, false, true, ltb, to_bits, Float};
ghost use Rattle.std.specs.Float.{nan};
ghost use Rattle.std.specs.Float.Ieee.{add, hid, of_bits, top};
ghost use Rattle.words.specs.Format.{infinity, magnitude, negative, one, ours, quiet, signed};
ghost use Rattle.power.specs.declared.answer.Fate.TheVariants.{Over, Under, Within};
ghost use Rattle.power.specs.Chain.{#1, #2, #3, #half, #quarter, chop, con, exponent_of, fate_of, head_of, interval_of, raised_of, reduced_of, whole};
ghost use Rattle.power.specs.NoNan.{Finite, Number};
ghost use Rattle.power.specs.Stages.{clear, lift_of, rest_of};
ghost use Rattle.power.specs.Width as Chains;
ghost use Rattle.power.proofs.Clear as Clear;
ghost use Rattle.power.proofs.HighWord.{High};
ghost use Rattle.chain.proofs.Known.{Known};
ghost use Rattle.pow.specs.Parts.{of, reduction};

use super::exponential::Turn;
use super::reduction::Reduced;
use power::answer::Fate;
use words::width::Width;

// The limits that the open power goes by, each a high word: |y| is large above `huge`, and above `must` every x over-
// or underflows; between them one below `less` or above `more` does. `one` is that of 1.
#[derive(Clone, Copy)]
pub struct Limits {
    pub huge: u32,
    pub must: u32,
    pub less: u32,
    pub more: u32,
    pub one: u32,
}

pub trait Chain: Width {
    const ONE: Self;

    const MINUS_ONE: Self;

    const TWO: Self;

    const THREE: Self;

    const HALF: Self;

    const QUARTER: Self;

    // What the definitions read of the width. `of format width` is that, in the width's format.
    ghost width: { Chains.Width };

    ghost ONE: { Self };

    ghost MINUS_ONE: { Self };

    ghost TWO: { Self };

    ghost THREE: { Self };

    ghost HALF: { Self };

    ghost QUARTER: { Self };

    // What `interval` adds to e is less than this, and so is what `reduce` finds than the next.
    ghost most_added: { ℕ };

    ghost most_reduced: { ℕ };

    // The sum with a large number finds n of a z whose size is below this.
    ghost turnable: { ℕ };

    fn limits() -> Limits
        ensures { (result.huge ≡ width.huge) × (result.must ≡ width.must) × (result.less ≡ width.less) × (result.more ≡ width.more) × (result.one ≡ one (ours Self.format) / 2 ^ width.below) };

    // The constant at a place of the table.
    fn constant(i: usize) -> Self
        requires { i < 31 }
        ensures { Self.value result ≡ con (of Self.format width) i };

    // The constant at k of a pair of them: of the two words one is masked out, so that no branch hangs on k.
    fn pick(at: usize, k: Self::Word) -> Self
        requires { (at < 30) × (Self.Word.number k < 2) }
        ensures { Self.value result ≡ con (of Self.format width) (at + Self.Word.number k) };

    // x, which is no NaN, without the lowest digits of its word.
    fn leading(self) -> Self
        requires { Number (Self.value self) }
        ensures { Self.value result ≡ chop (of Self.format width) width.short (Self.value self) };

    // The same without as many as the exponential needs.
    fn leading_shorter(self) -> Self
        requires { Number (Self.value self) }
        ensures { Self.value result ≡ chop (of Self.format width) width.shorter (Self.value self) };

    // Whether a block walks with the pair.
    fn is_clear(x: Self::Word, y: Self::Word) -> bool
        ensures { result ≡ clear (of Self.format width) (Self.Word.number x) (Self.Word.number y) };

    // The high word of |x|.
    fn high(x: Self::Word) -> u32
        ensures { result ≡ magnitude (ours Self.format) (Self.Word.number x) / 2 ^ width.below };

    fn is_negative(x: Self::Word) -> bool
        ensures { result ≡ negative (ours Self.format) (Self.Word.number x) };

    // The word of the number with the other sign.
    fn negated(x: Self::Word) -> Self::Word
        ensures { Self.Word.number result ≡ (Self.Word.number x + top Self.format) % (2 * top Self.format) };

    // Determine the interval: |x| < sqrt(3/2), |x| < sqrt(3), or above, where z is halved.
    fn interval(ix: Self::Word, e: u32) -> Reduced<Self::Word>
        requires { (Self.Word.number ix < top Self.format) × (e ≤ 53) }
        ensures result_value { reduction Self.Word.number result ≡ interval_of (of Self.format width) (Self.Word.number ix) e }
        ensures ix_bound { (Self.Word.number result.ix < top Self.format / 2) × (Self.Word.number result.k < 2) × (result.e < 8192) }
        ensures e_bound { result.e < e + most_added };

    // A subnormal number is multiplied by 2^24 or 2^53 first.
    fn reduce(ix: Self::Word) -> Reduced<Self::Word>
        requires { Self.Word.number ix < top Self.format }
        ensures result_value { reduction Self.Word.number result ≡ reduced_of (of Self.format width) (Self.Word.number ix) }
        ensures ix_bound { (Self.Word.number result.ix < top Self.format / 2) × (Self.Word.number result.k < 2) × (result.e < 8192) }
        ensures e_bound { result.e < most_reduced };

    // t_h = ax + bp[k] High.
    fn head(ix: Self::Word, k: Self::Word) -> Self
        requires { (Self.Word.number ix < top Self.format / 2) × (Self.Word.number k < 2) }
        ensures { Self.value result ≡ head_of (of Self.format width) (Self.Word.number ix) (Self.Word.number k) };

    // n as a float.
    fn exponent(e: u32) -> Self
        requires { e < 8192 }
        ensures { Self.value result ≡ exponent_of (of Self.format width) e };

    // Whether the power over- or underflows, by z = hi + lo and, at the limits, by what z has lost.
    fn fate_of(hi: Self, lo: Self) -> Fate
        requires { Number (add Self.format (Self.value lo) (Self.value hi)) }
        ensures { result ≡ fate_of (of Self.format width) Over Under Within (record { hi = Self.value hi; lo = Self.value lo }) };

    // Whether |z| is below the first of these limits.
    fn is_inside(z: Self) -> bool
        requires { Number (Self.value z) }
        ensures { result ≡ ltb (to_bits Self.format (Self.value z) % top Self.format) width.large };

    // h less n = [z + 0.5], and n, by a sum with a large number, whose last digit counts ones. None is said of a z that
    // may be halfway between two whole numbers.
    fn turned(h: Self, z: Self) -> Option<Turn<Self, Self::Word>>
        requires { Number (Self.value z) × (to_bits Self.format (Self.value z) % top Self.format < turnable) }
        ensures { IfSome result (λ t. (Self.value t.hi ≡ rest_of (of Self.format width) (Self.value h) (Self.value z)) × (Self.Word.number t.e ≡ lift_of (of Self.format width) (Self.value z)) × (Self.Word.number t.e < 2 * whole (of Self.format width)) × ((l : Float) → Finite l → Finite (Self.value h) → Number (add Self.format l (Self.value t.hi)))) };

    // The same for every z within the limits: by the digits of its word, where the sum is not sure.
    fn fraction(h: Self, z: Self) -> Turn<Self, Self::Word>
        requires { Number (Self.value z) × (to_bits Self.format (Self.value z) % top Self.format ≤ width.small) }
        ensures { (Self.value result.hi ≡ rest_of (of Self.format width) (Self.value h) (Self.value z)) × (Self.Word.number result.e ≡ lift_of (of Self.format width) (Self.value z))
            × (Self.Word.number result.e < 2 * whole (of Self.format width)) };

    // The word w with e added to its exponent's field, where that is a normal number's.
    fn lifted(w: Self::Word, e: Self::Word) -> Option<Self::Word>
        ensures none { IsNone result → hid Self.format ≤ (Self.Word.number w + Self.Word.number e * hid Self.format) % (2 * top Self.format) → infinity (ours Self.format) ≤ (Self.Word.number w + Self.Word.number e * hid Self.format) % (2 * top Self.format) }
        ensures some { IfSome result (λ r. (Self.Word.number r ≡ (Self.Word.number w + Self.Word.number e * hid Self.format) % (2 * top Self.format)) × (hid Self.format ≤ Self.Word.number r) × (Self.Word.number r < infinity (ours Self.format))) };

    // The word of z * 2^n: n goes to the exponent's field.
    fn raised(z: Self, e: Self::Word) -> Self::Word
        requires { (Self.Word.number e < 2 * whole (of Self.format width)) × Number (Self.value z) × Number (raised_of (of Self.format width) (Self.value z) (Self.Word.number e)) }
        ensures { Self.Word.number result ≡ to_bits Self.format (raised_of (of Self.format width) (Self.value z) (Self.Word.number e)) };

    ghost one_is: { Self.value ONE ≡ #1 (of Self.format width) };

    ghost plus_is: { Self.value ONE ≡ of_bits Self.format (signed (ours Self.format) false (one (ours Self.format))) };

    ghost minus_is: { Self.value MINUS_ONE ≡ of_bits Self.format (signed (ours Self.format) true (one (ours Self.format))) };

    ghost two_is: { Self.value TWO ≡ #2 (of Self.format width) };

    ghost three_is: { Self.value THREE ≡ #3 (of Self.format width) };

    ghost half_is: { Self.value HALF ≡ #half (of Self.format width) };

    ghost quarter_is: { Self.value QUARTER ≡ #quarter (of Self.format width) };

    // A leading part of the NaN is the NaN.
    ghost short: { chop (of Self.format width) width.short nan ≡ nan };

    ghost shorter: { chop (of Self.format width) width.shorter nan ≡ nan };

    // How the width's numbers stand to each other.
    ghost known: { Known (of Self.format width) };

    ghost room: { Clear.Room (of Self.format width) };

    ghost limits_grow: { width.large ≤ width.small };

    ghost small_turnable: { width.small < turnable };

    ghost large_finite: { width.large < quiet (ours Self.format) };

    // How many digits the high word has below its leading one, and one less than the largest exponent.
    ghost high_word: { (m : ℕ) × (d : ℕ) × High (of Self.format width) m d };

    // Two words of one number are one.
    ghost told_apart: { (v w : Self.Word) → Self.Word.number v ≡ Self.Word.number w → v ≡ w };
}
