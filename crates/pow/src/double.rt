// What the open chain asks of f64. How each word of the table is known is told in `power/specs/Table64.antt`.
ghost use Rattle.std.specs.Prelude.{◌≡◌, ◌+◌, ◌-◌, ◌/◌, ◌%◌, ◌^◌, ◌<◌, ◌≤◌, refl, to_bits};
ghost use Rattle.std.specs.Float.Ieee as Ieee;
ghost use Rattle.std.proofs.Common.{lit<, lit≤};
ghost use Rattle.power.specs.Chain.{con, nearest_of};
ghost use Rattle.power.specs.Places.{TWO};
ghost use Rattle.power.specs.Power.{double};
ghost use Rattle.power.proofs.Nan.{short64};
ghost use Rattle.power.proofs.Clear.{room64};
ghost use Rattle.power.proofs.HighWord.{high64};
ghost use Rattle.chain.proofs.Widths.{known64};
ghost use Rattle.pow.specs.Parts.{nearest};

use super::exponential::{Turn, Whole};
use super::halves::{get_high_word, with_set_high_word, with_set_low_word};
use super::reduction::Reduced;
use super::steps::{Chain, Limits};
use super::table::OVT;
use power::answer::Fate;
use power::unbiased::unbiased;
use scale::scaling::Scale;
use words::width::Width;

const TABLE: [u64; 31] = [
    0x3ff0000000000000, // BP[0]
    0x3ff8000000000000, // BP[1]
    0x0000000000000000, // DP_H[0]
    0x3fe2b80340000000, // DP_H[1]
    0x0000000000000000, // DP_L[0]
    0x3e4cfdeb43cfd006, // DP_L[1]
    0x4340000000000000, // TWO53
    0x7e37e43c8800759c, // HUGE
    0x01a56e1fc2f8f359, // TINY
    0x3fe3333333333303, // L1
    0x3fdb6db6db6fabff, // L2
    0x3fd55555518f264d, // L3
    0x3fd17460a91d4101, // L4
    0x3fcd864a93c9db65, // L5
    0x3fca7e284a454eef, // L6
    0x3fc555555555553e, // P1
    0xbf66c16c16bebd93, // P2
    0x3f11566aaf25de2c, // P3
    0xbebbbd41c5d26bf1, // P4
    0x3e66376972bea4d0, // P5
    0x3fe62e42fefa39ef, // LG2
    0x3fe62e4300000000, // LG2_H
    0xbe205c610ca86c39, // LG2_L
    0x3c971547652b82fe, // OVT
    0x3feec709dc3a03fd, // CP
    0x3feec709e0000000, // CP_H
    0xbe3e2fe0145b01f5, // CP_L
    0x3ff71547652b82fe, // IVLN2
    0x3ff7154760000000, // IVLN2_H
    0x3e54ae0bf85ddf44, // IVLN2_L
    0x3fd5555555555555, // THIRD
];

// n = [z + 0.5] and t, from the high word of a z with |z| > 0.5.
fn nearest_to(j: u32) -> Whole<f64>
    requires { (0x3fe00000 < j % 2 ^ 31) × (j % 2 ^ 31 ≤ 0x4090cc00) }
    ensures result_value { nearest result ≡ nearest_of double j }
    ensures size_bound { result.size < 4096 }
{
    let i = j & 0x7fffffff;
    let n = j + (0x00100000 >> ((i >> 20) - 1022));
    let k = ((n & 0x7fffffff) >> 20) - 1023;
    Whole {
        size: ((n & 0x000fffff) | 0x00100000) >> (20 - k),
        float: with_set_high_word(0.0, n & !(0x000fffff >> k)),
    }
}

// The word of a subnormal number times 2^53, by a shift: a multiplication of a subnormal number is slow.
fn normalized(m: u64) -> u64
    requires { m < 2 ^ 52 }
    ensures value { result ≡ Ieee.to_bits Ieee.binary64 (Ieee.mul Ieee.binary64 (Ieee.of_bits Ieee.binary64 m) (con double TWO)) }
    ensures upper_bound { result < 2 ^ 63 }
{
    let s = u64::leading_zeros(m) - 11;
    (((53 - s) as u64) << 52) + (m << s)
}

// The digits of a normal number's word w with the last s cut off: rounded to the nearest, and halfway to the even one.
// That is the word of a subnormal output.
fn lowered(w: u64, s: u64) -> u64
    requires { (1 ≤ s) × (s < 64) }
    ensures { result ≡ (2 ^ 52 + w % 2 ^ 52 + (2 ^ (s - 1) - 1 + (2 ^ 52 + w % 2 ^ 52) / 2 ^ s % 2)) / 2 ^ s }
{
    let m = (w & 0x000fffffffffffff) | 0x0010000000000000;
    (m + (((1 << (s - 1)) - 1) + ((m >> s) & 1))) >> s
}

impl Chain for f64 {
    const ONE: f64 = 1.0;

    const MINUS_ONE: f64 = -1.0;

    const TWO: f64 = 2.0;

    const THREE: f64 = 3.0;

    const HALF: f64 = 0.5;

    const QUARTER: f64 = 0.25;

    ghost width = { double };

    ghost ONE = { Ieee.of_bits Ieee.binary64 0x3ff0000000000000 };

    ghost MINUS_ONE = { Ieee.of_bits Ieee.binary64 0xbff0000000000000 };

    ghost TWO = { Ieee.of_bits Ieee.binary64 0x4000000000000000 };

    ghost THREE = { Ieee.of_bits Ieee.binary64 0x4008000000000000 };

    ghost HALF = { Ieee.of_bits Ieee.binary64 0x3fe0000000000000 };

    ghost QUARTER = { Ieee.of_bits Ieee.binary64 0x3fd0000000000000 };

    ghost most_added = { 4200 };

    ghost most_reduced = { 4300 };

    ghost turnable = { 0x40a0000000000000 };

    ghost one_is = { refl };

    ghost plus_is = { refl };

    ghost minus_is = { refl };

    ghost two_is = { refl };

    ghost three_is = { refl };

    ghost half_is = { refl };

    ghost quarter_is = { refl };

    ghost short = { short64 };

    ghost shorter = { short64 };

    ghost known = { known64 };

    ghost room = { room64 };

    ghost limits_grow = { lit≤ tt };

    ghost small_turnable = { lit< tt };

    ghost large_finite = { lit< tt };

    ghost high_word = { (20, 1022, high64) };

    ghost told_apart = { λ _ _ e. e };

    fn limits() -> Limits {
        Limits {
            huge: 0x41e00000,
            must: 0x43f00000,
            less: 0x3fefffff,
            more: 0x3ff00000,
            one: 0x3ff00000,
        }
    }

    fn constant(i: usize) -> f64 {
        f64::of_word(TABLE[i])
    }

    fn pick(at: usize, k: u64) -> f64 {
        let second = k * 0xffffffffffffffff;
        f64::from_bits((TABLE[at] & !second) | (TABLE[at + 1] & second))
    }

    fn leading(self) -> f64 {
        with_set_low_word(self, 0)
    }

    fn leading_shorter(self) -> f64 {
        self.leading()
    }

    fn is_clear(x: u64, y: u64) -> bool {
        let base = ((x >= 0x0010000000000000) & (x < 0x7ff0000000000000))
            & (x != 0x3ff0000000000000);
        let exponent = ((y & 0x7fffffffffffffff) < 0x41e0000100000000)
            & ((y & 0x000fffffffffffff) > 0);
        base & exponent
    }

    fn high(x: u64) -> u32 {
        ((x & 0x7fffffffffffffff) >> 32) as u32
    }

    fn is_negative(x: u64) -> bool {
        x >= 0x8000000000000000
    }

    fn negated(x: u64) -> u64 {
        std::num::wrapping_add_u64(x, 0x8000000000000000)
    }

    // By sums alone: what sqrt(3) lacks to 2 is added, so that n is one more from there on, and the sign's place is
    // reached from sqrt(3/2) on.
    fn interval(ix: u64, e: u32) -> Reduced<u64> {
        let n = (ix + 0x0004498600000000) >> 52;
        let z = (ix + 0x3ff0000000000000) - (n << 52);
        Reduced {
            ix: z,
            k: (z + 0x400c677100000000) >> 63,
            e: e + (n as u32),
        }
    }

    fn reduce(ix: u64) -> Reduced<u64> {
        if ix < 0x0010000000000000 {
            f64::interval(normalized(ix), 0)
        } else {
            f64::interval(ix, 53)
        }
    }

    fn head(ix: u64, k: u64) -> f64 {
        let is = ((ix >> 1) & 0xffffffff00000000) | 0x2000000000000000;
        f64::from_bits(is + (0x0008000000000000 + (k << 50)))
    }

    fn exponent(e: u32) -> f64 {
        let n = unbiased(e, 1076);
        n as f64
    }

    // Overflow above 1024, underflow below -1075.
    fn fate_of(hi: f64, lo: f64) -> Fate {
        let z = lo + hi;
        let j = f64::to_bits(z);
        if (j & 0x7fffffffffffffff) < 0x4090000000000000 {
            return Fate::Within;
        }
        if j < 0x8000000000000000 {
            if j > 0x4090000000000000 {
                return Fate::Over;
            }
            if lo + f64::constant(OVT) > z - hi {
                return Fate::Over;
            }
            return Fate::Within;
        }
        if j > 0xc090cc0000000000 {
            return Fate::Under;
        }
        if j == 0xc090cc0000000000 {
            if lo <= z - hi {
                return Fate::Under;
            }
        }
        Fate::Within
    }

    fn is_inside(z: f64) -> bool {
        (f64::to_bits(z) & 0x7fffffffffffffff) < 0x4090000000000000
    }

    fn turned(h: f64, z: f64) -> Option<Turn<f64, u64>> {
        let m = z + 6755399441055744.0;
        let t = m - 6755399441055744.0;
        let off = f64::to_bits(z - t) & 0x7fffffffffffffff;
        let high = f64::to_bits(z) & 0x7fffffff00000000;
        let sure = (off < 0x3fe0000000000000) & (high != 0x3fe0000000000000);
        if sure {
            Some(Turn {
                hi: h - t,
                e: f64::to_bits(m) - 0x4337fffffffff000,
            })
        } else {
            None
        }
    }

    fn fraction(h: f64, z: f64) -> Turn<f64, u64> {
        if let Some(t) = f64::turned(h, z) {
            return t;
        }
        let j = get_high_word(z);
        if (j & 0x7fffffff) > 0x3fe00000 {
            let n = nearest_to(j);
            let size = n.size as u64;
            return Turn {
                hi: h - n.float,
                e: if j >= 0x80000000 {
                    4096 - size
                } else {
                    4096 + size
                },
            };
        }
        Turn { hi: h, e: 4096 }
    }

    fn lifted(w: u64, e: u64) -> Option<u64> {
        let r = std::num::wrapping_add_u64(w, e << 52);
        if std::num::wrapping_add_u64(r, 0xfff0000000000000) < 0x7fe0000000000000 {
            Some(r)
        } else {
            None
        }
    }

    // n is e - 4096. A subnormal output is found in whole numbers, since a multiplication that gives one is slow.
    fn raised(z: f64, e: u64) -> u64 {
        let w = f64::to_bits(z);
        let j = std::num::wrapping_add_u64(w, e << 52);
        if std::num::wrapping_add_u64(j, 0xfff0000000000000) < 0x7ff0000000000000 {
            return j;
        }
        let s = std::num::wrapping_sub_u64(4097, (w >> 52) + e);
        if ((w >= 0x0010000000000000) & (w < 0x7ff0000000000000)) & ((s > 0) & (s < 64)) {
            return lowered(w, s);
        }
        z.scale(unbiased(e as u32, 4096)).to_word()
    }
}
