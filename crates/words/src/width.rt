// The two widths: what code that is written once for f32 and f64 asks of them.
ghost use Rattle.std.specs.Prelude.{◌≡◌, ℕ, ◌*◌, ◌^◌, false, refl, from_bits, to_bits, is_nan, bit_and, Float};
ghost use Rattle.std.specs.Float.Ieee as Ieee;
ghost use Rattle.std.specs.Float.Ieee.{nan_bits};
ghost use Rattle.std.specs.Float.{nan};
ghost use Rattle.std.specs.Ordering.{float_partial_cmp};
ghost use Rattle.std.proofs.lemmas.Nat.{and_mask};
ghost use Rattle.words.specs.Format.{infinity, magnitude, ours, quiet, top};

use super::format::Format;
use super::word::Word;
use std::ops::{Add, Div, Mul, Sub};

// A float type, its words and the format of both. The operations are IEEE 754's, and may be used on all floats.
pub trait Width: Copy
    + Add<Output = Self>
    + Sub<Output = Self>
    + Mul<Output = Self>
    + Div<Output = Self>
    + PartialOrd {
    type Word: Word;

    // All digits of a word but the sign's; infinity's word; the word of the NaN that is returned, and that NaN.
    const SIZE: Self::Word;

    const INFINITY: Self::Word;

    const QUIET: Self::Word;

    const NAN: Self;

    ghost SIZE: { Self.Word };

    ghost INFINITY: { Self.Word };

    ghost QUIET: { Self.Word };

    ghost NAN: { Self };

    ghost format: { Ieee.Format };

    // The number that a float stands for.
    ghost value: { Self → Float };

    fn format() -> Format
        ensures { result ≡ ours format };

    // The float of a word that is no NaN's.
    fn from_bits(w: Self::Word) -> Self
        requires { nan_bits format (Self.Word.number w) ≡ false }
        ensures { value result ≡ from_bits format (Self.Word.number w) };

    // The word of a float that is no NaN.
    fn to_bits(self) -> Self::Word
        requires { is_nan (value self) ≡ false }
        ensures { Self.Word.number result ≡ to_bits format (value self) };

    ghost word_size: { 2 ^ Self.Word.BITS ≡ 2 * top (ours format) };

    ghost size_is: { (n : ℕ) → bit_and n (Self.Word.number SIZE) ≡ magnitude (ours format) n };

    ghost infinity_is: { Self.Word.number INFINITY ≡ infinity (ours format) };

    ghost quiet_is: { Self.Word.number QUIET ≡ quiet (ours format) };

    ghost nan_is: { value NAN ≡ nan };

    ghost equals: { (x y : Self) → Self.PartialEq.eq x y ≡ Ieee.eq (value x) (value y) };

    ghost compares: { (x y : Self) → Self.PartialOrd.partial_cmp x y ≡ float_partial_cmp (value x) (value y) };

    ghost may_add: { (x y : Self) → Self.Add.can_add x y };

    ghost may_sub: { (x y : Self) → Self.Sub.can_sub x y };

    ghost may_mul: { (x y : Self) → Self.Mul.can_mul x y };

    ghost may_div: { (x y : Self) → Self.Div.can_div x y };

    ghost adds: { (x y r : Self) → Self.Add.add_gives x y r → value r ≡ Ieee.add format (value x) (value y) };

    ghost subs: { (x y r : Self) → Self.Sub.sub_gives x y r → value r ≡ Ieee.sub format (value x) (value y) };

    ghost muls: { (x y r : Self) → Self.Mul.mul_gives x y r → value r ≡ Ieee.mul format (value x) (value y) };

    ghost divs: { (x y r : Self) → Self.Div.div_gives x y r → value r ≡ Ieee.div format (value x) (value y) };

    // The absolute value of every word: the sign bit is cleared and all others are kept, NaN included.
    final fn fabs(x: Self::Word) -> Self::Word
        ensures { Self.Word.number result ≡ magnitude (ours format) (Self.Word.number x) }
    {
        x & Self::SIZE
    }

    // The float of a word; every NaN's word gives the one NaN.
    final fn of_word(w: Self::Word) -> Self
        ensures { value result ≡ from_bits format (Self.Word.number w) }
    {
        if Self::fabs(w) > Self::INFINITY {
            Self::NAN
        } else {
            Self::from_bits(w)
        }
    }

    // The word of a float; the NaN gives the quiet NaN's word.
    final fn to_word(self) -> Self::Word
        ensures { Self.Word.number result ≡ to_bits format (value self) }
    {
        if self != self {
            Self::QUIET
        } else {
            self.to_bits()
        }
    }
}

// The impls hold what differs, and call the type's own methods: there is no step in them that could be shared.
impl Width for f32 {
    type Word = u32;

    const SIZE: u32 = 0x7fffffff;

    const INFINITY: u32 = 0x7f800000;

    const QUIET: u32 = 0x7fc00000;

    const NAN: f32 = f32::NAN;

    ghost SIZE = { 0x7fffffff };

    ghost INFINITY = { 0x7f800000 };

    ghost QUIET = { 0x7fc00000 };

    ghost NAN = { nan };

    ghost format = { Ieee.binary32 };

    ghost value = { λ x. x };

    ghost word_size = { refl };

    ghost size_is = { λ n. and_mask n 31 };

    ghost infinity_is = { refl };

    ghost quiet_is = { refl };

    ghost nan_is = { refl };

    ghost equals = { λ _ _. refl };

    ghost compares = { λ _ _. refl };

    ghost may_add = { λ _ _. tt };

    ghost may_sub = { λ _ _. tt };

    ghost may_mul = { λ _ _. tt };

    ghost may_div = { λ _ _. tt };

    ghost adds = { λ _ _ _ h. h };

    ghost subs = { λ _ _ _ h. h };

    ghost muls = { λ _ _ _ h. h };

    ghost divs = { λ _ _ _ h. h };

    fn format() -> Format {
        Format::binary32()
    }

    fn from_bits(w: u32) -> f32 {
        f32::from_bits(w)
    }

    fn to_bits(self) -> u32 {
        f32::to_bits(self)
    }
}

impl Width for f64 {
    type Word = u64;

    const SIZE: u64 = 0x7fffffffffffffff;

    const INFINITY: u64 = 0x7ff0000000000000;

    const QUIET: u64 = 0x7ff8000000000000;

    const NAN: f64 = f64::NAN;

    ghost SIZE = { 0x7fffffffffffffff };

    ghost INFINITY = { 0x7ff0000000000000 };

    ghost QUIET = { 0x7ff8000000000000 };

    ghost NAN = { nan };

    ghost format = { Ieee.binary64 };

    ghost value = { λ x. x };

    ghost word_size = { refl };

    ghost size_is = { λ n. and_mask n 63 };

    ghost infinity_is = { refl };

    ghost quiet_is = { refl };

    ghost nan_is = { refl };

    ghost equals = { λ _ _. refl };

    ghost compares = { λ _ _. refl };

    ghost may_add = { λ _ _. tt };

    ghost may_sub = { λ _ _. tt };

    ghost may_mul = { λ _ _. tt };

    ghost may_div = { λ _ _. tt };

    ghost adds = { λ _ _ _ h. h };

    ghost subs = { λ _ _ _ h. h };

    ghost muls = { λ _ _ _ h. h };

    ghost divs = { λ _ _ _ h. h };

    fn format() -> Format {
        Format::binary64()
    }

    fn from_bits(w: u64) -> f64 {
        f64::from_bits(w)
    }

    fn to_bits(self) -> u64 {
        f64::to_bits(self)
    }
}
