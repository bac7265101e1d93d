// A lane of a block: one of 64 pairs, and what the stages leave of it. A pair that is not clear is flagged, and so is one
// whose way turns out not to be the plain one.
ghost use Rattle.std.specs.Prelude.{◌≡◌, ◌+◌, ◌%◌, ◌<◌, ◌≤◌, ◌⊎◌, if◌then◌else◌, to_bits};
ghost use Rattle.std.specs.Float.Ieee.{add, hid, of_bits, top};
ghost use Rattle.words.specs.Format.{infinity, magnitude, ours};
ghost use Rattle.power.specs.Chain.{con, exponent_of, log2_of, logarithm_of, parts_of, reduced_of, series_of};
ghost use Rattle.power.specs.NoNan.{Finite, Number};
ghost use Rattle.power.specs.Places.{DP-H, DP-L};
ghost use Rattle.power.specs.Stages.{Ended, Stepped, clear, lift_of, ratio_of, rest_of, times_of, walked_with};
ghost use Rattle.pow.specs.Lanes.{ended_of};
ghost use Rattle.pow.specs.Parts.{of, three_in, two_in};

use super::exponential::{exponential, parts, product};
use super::logarithm::{Ratio, log2, logarithm, quotient, series};
use super::pair::Pair;
use super::steps::Chain;
use super::table::{BP, DP_H, DP_L};
use words::word::Word;

// The flag, 0 or 1; the word of x, its interval and then n; the word of y; s; the upper and the lower part; the series; n
// of x as a float.
#[derive(Clone, Copy)]
pub struct Lane<F, W> {
    pub flag: W,
    pub w: W,
    pub e: W,
    pub s: F,
    pub hi: F,
    pub lo: F,
    pub r: F,
    pub t: F,
}

impl<F: Chain> Lane<F, F::Word> {
    fn parts(self) -> Pair<F>
        ensures { result ≡ record { hi = self.hi; lo = self.lo } }
    {
        Pair {
            hi: self.hi,
            lo: self.lo,
        }
    }

    fn ratio(self) -> Ratio<F>
        ensures { result ≡ record { s = self.s; hi = self.hi; lo = self.lo } }
    {
        Ratio {
            s: self.s,
            hi: self.hi,
            lo: self.lo,
        }
    }

    // A pair to walk with: the words of x and y themselves, or, flagged, 1.5 to the 1.5 in their place.
    pub fn entered(self) -> Self
        ensures flag { F.Word.number result.flag ≡ (if clear (of F.format F.width) (F.Word.number self.w) (F.Word.number self.e) then 0 else 1) }
        ensures base { F.Word.number result.w ≡ walked_with (of F.format F.width) (clear (of F.format F.width) (F.Word.number self.w) (F.Word.number self.e)) (F.Word.number self.w) }
        ensures exponent { F.Word.number result.e ≡ walked_with (of F.format F.width) (clear (of F.format F.width) (F.Word.number self.w) (F.Word.number self.e)) (F.Word.number self.e) }
        ensures others { (result.s ≡ self.s) × (result.hi ≡ self.hi) × (result.lo ≡ self.lo) × (result.r ≡ self.r) × (result.t ≡ self.t) }
    {
        if F::is_clear(self.w, self.e) {
            return Lane {
                flag: F::Word::ZERO,
                ..self
            };
        }
        let f = F::format();
        let filling = F::Word::narrow(f.one() + (f.hid() >> 1));
        Lane {
            flag: F::Word::narrow(1),
            w: filling,
            e: filling,
            ..self
        }
    }

    // ---- the logarithm

    // s in its parts, its interval in the place of the word, and n as a float.
    pub fn started(self) -> Self
        requires { (hid F.format ≤ F.Word.number self.w) × (F.Word.number self.w < infinity (ours F.format)) × Number (ratio_of (of F.format F.width) (F.Word.number self.w)).lo }
        ensures interval { F.Word.number result.w ≡ (reduced_of (of F.format F.width) (F.Word.number self.w)).k }
        ensures ratio { three_in F.value result ≡ ratio_of (of F.format F.width) (F.Word.number self.w) }
        ensures exponent { F.value result.t ≡ exponent_of (of F.format F.width) (reduced_of (of F.format F.width) (F.Word.number self.w)).e }
        ensures kept { (result.flag ≡ self.flag) × (result.e ≡ self.e) }
        ensures others { result.r ≡ self.r }
    {
        let r = F::interval(self.w, F::format().digits());
        let q = quotient(F::from_bits(r.ix), F::pick(BP, r.k), F::head(r.ix, r.k));
        Lane {
            w: r.k,
            s: q.s,
            hi: q.hi,
            lo: q.lo,
            t: F::exponent(r.e),
            ..self
        }
    }

    pub fn with_series(self) -> Self
        ensures series { F.value result.r ≡ series_of (of F.format F.width) (three_in F.value self) }
        ensures kept { (result.flag ≡ self.flag) × (result.w ≡ self.w) × (result.e ≡ self.e) × (three_in F.value result ≡ three_in F.value self) × (result.t ≡ self.t) }
        ensures others { (result.s ≡ self.s) × (result.hi ≡ self.hi) × (result.lo ≡ self.lo) }
    {
        Lane {
            r: series(self.ratio()),
            ..self
        }
    }

    // The logarithm's two parts take the places of s_h and s_l.
    pub fn with_logarithm(self) -> Self
        requires { Number (logarithm_of (of F.format F.width) (three_in F.value self) (F.value self.r)).lo }
        ensures logarithm { two_in F.value result ≡ logarithm_of (of F.format F.width) (three_in F.value self) (F.value self.r) }
        ensures kept { (result.flag ≡ self.flag) × (result.w ≡ self.w) × (result.e ≡ self.e) × (result.t ≡ self.t) }
        ensures others { (result.s ≡ self.s) × (result.r ≡ self.r) }
    {
        let p = logarithm(self.ratio(), self.r);
        Lane {
            hi: p.hi,
            lo: p.lo,
            ..self
        }
    }

    // ---- times y

    // p_h and p_l take the places of the logarithm's two parts.
    pub fn with_product(self) -> Self
        requires { (magnitude (ours F.format) (F.Word.number self.e) < infinity (ours F.format)) × (F.Word.number self.w < 2)
            × Number (log2_of (of F.format F.width) (two_in F.value self) (con (of F.format F.width) (DP-H + F.Word.number self.w)) (con (of F.format F.width) (DP-L + F.Word.number self.w)) (F.value self.t)).lo }
        ensures product { two_in F.value result ≡ times_of (of F.format F.width) (of_bits F.format (F.Word.number self.e)) (two_in F.value self) (F.Word.number self.w) (F.value self.t) }
        ensures kept { result.flag ≡ self.flag }
        ensures others { (result.w ≡ self.w) × (result.e ≡ self.e) × (result.s ≡ self.s) × (result.r ≡ self.r) × (result.t ≡ self.t) }
    {
        let p = product(
            F::from_bits(self.e),
            log2(
                self.parts(),
                F::pick(DP_H, self.w),
                F::pick(DP_L, self.w),
                self.t,
            ),
        );
        Lane {
            hi: p.hi,
            lo: p.lo,
            ..self
        }
    }

    // ---- 2 to that

    // What is left of p_h in its place, and n in that of the interval. Flagged, and otherwise kept, where z is not inside
    // the limits, or n is not sure; for a z inside them it stays open which of the two, as in `Chain::turned`.
    pub fn turned(self) -> Self
        requires { Finite (F.value self.hi) × Finite (F.value self.lo) × (F.Word.number self.flag < 2) }
        ensures stepped { Stepped (of F.format F.width) (two_in F.value self) (F.Word.number self.flag) (F.value result.hi) (F.Word.number result.w) (F.Word.number result.flag) }
        ensures kept { result.lo ≡ self.lo }
        ensures others { (result.e ≡ self.e) × (result.s ≡ self.s) × (result.r ≡ self.r) × (result.t ≡ self.t) }
        ensures either { let z = add F.format (F.value self.lo) (F.value self.hi) in
            ((result.hi ≡ self.hi) × (result.w ≡ self.w) × (F.Word.number result.flag ≡ 1))
            ⊎ ((to_bits F.format z % top F.format < F.width.large) × (F.value result.hi ≡ rest_of (of F.format F.width) (F.value self.hi) z) × (F.Word.number result.w ≡ lift_of (of F.format F.width) z) × (result.flag ≡ self.flag)) }
    {
        let z = self.lo + self.hi;
        let turn = if F::is_inside(z) {
            F::turned(self.hi, z)
        } else {
            None
        };
        match turn {
            Some(t) => Lane {
                hi: t.hi,
                w: t.e,
                ..self
            },
            None => Lane {
                flag: F::Word::narrow(1),
                ..self
            },
        }
    }

    // z and w take the places of what is left.
    pub fn with_parts(self) -> Self
        requires { Number (add F.format (F.value self.lo) (F.value self.hi)) }
        ensures parts { two_in F.value result ≡ parts_of (of F.format F.width) (two_in F.value self) }
        ensures kept { (result.flag ≡ self.flag) × (result.w ≡ self.w) }
        ensures others { (result.e ≡ self.e) × (result.s ≡ self.s) × (result.r ≡ self.r) × (result.t ≡ self.t) }
    {
        let q = parts(self.parts());
        Lane {
            hi: q.hi,
            lo: q.lo,
            ..self
        }
    }

    // The word of the power in the place of n. Flagged, and otherwise kept, where the word is no normal number's.
    pub fn ended(self) -> Self
        requires { F.Word.number self.flag < 2 }
        ensures ended { Ended (of F.format F.width) (two_in F.value self) (F.Word.number self.w) (F.Word.number self.flag) (F.Word.number result.w) (F.Word.number result.flag) }
        ensures lifted { let s = ended_of (of F.format F.width) (two_in F.value self) (F.Word.number self.w) in
            hid F.format ≤ s → s < infinity (ours F.format) → (F.Word.number result.w ≡ s) × (result.flag ≡ self.flag) }
        ensures flagged { let s = ended_of (of F.format F.width) (two_in F.value self) (F.Word.number self.w) in
            (s < hid F.format) ⊎ (infinity (ours F.format) ≤ s) → (result.w ≡ self.w) × (F.Word.number result.flag ≡ 1) }
        ensures others { (result.e ≡ self.e) × (result.s ≡ self.s) × (result.hi ≡ self.hi) × (result.lo ≡ self.lo) × (result.r ≡ self.r) × (result.t ≡ self.t) }
    {
        match F::lifted(exponential(self.parts()).to_word(), self.w) {
            Some(w) => Lane { w, ..self },
            None => Lane {
                flag: F::Word::narrow(1),
                ..self
            },
        }
    }
}
