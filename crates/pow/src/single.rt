// What the open chain asks of f32. How each word of the table is known is told in `power/specs/Table32.antt`.
ghost use Rattle.std.specs.Prelude.{◌≡◌, ◌+◌, ◌-◌, ◌/◌, ◌%◌, ◌^◌, ◌<◌, ◌≤◌, refl, to_bits};
ghost use Rattle.std.specs.Float.Ieee as Ieee;
ghost use Rattle.std.proofs.Common.{lit<, lit≤};
ghost use Rattle.power.specs.Chain.{con, nearest_of};
ghost use Rattle.power.specs.Places.{TWO};
ghost use Rattle.power.specs.Power.{single};
ghost use Rattle.power.proofs.Nan.{short32, shorter32};
ghost use Rattle.power.proofs.Clear.{room32};
ghost use Rattle.power.proofs.HighWord.{high32};
ghost use Rattle.chain.proofs.Widths.{known32};
ghost use Rattle.pow.specs.Parts.{nearest};

use super::exponential::{Turn, Whole};
use super::reduction::Reduced;
use super::steps::{Chain, Limits};
use super::table::OVT;
use power::answer::Fate;
use power::unbiased::unbiased;
use scale::scaling::Scale;
use words::width::Width;

const TABLE: [u32; 31] = [
    0x3f800000, // BP[0]
    0x3fc00000, // BP[1]
    0x00000000, // DP_H[0]
    0x3f15c000, // DP_H[1]
    0x00000000, // DP_L[0]
    0x35d1cfdc, // DP_L[1]
    0x4b800000, // TWO24
    0x7149f2ca, // HUGE
    0x0da24260, // TINY
    0x3f19999a, // L1
    0x3edb6db7, // L2
    0x3eaaaaab, // L3
    0x3e8ba305, // L4
    0x3e6c3255, // L5
    0x3e53f142, // L6
    0x3e2aaaab, // P1
    0xbb360b61, // P2
    0x388ab355, // P3
    0xb5ddea0e, // P4
    0x3331bb4c, // P5
    0x3f317218, // LG2
    0x3f317200, // LG2_H
    0x35bfbe8c, // LG2_L
    0x3338aa3c, // OVT
    0x3f76384f, // CP
    0x3f764000, // CP_H
    0xb8f623c6, // CP_L
    0x3fb8aa3b, // IVLN2
    0x3fb8aa00, // IVLN2_H
    0x36eca570, // IVLN2_L
    0x3eaaaaab, // THIRD
];

// n = [z + 0.5] and t, for a z with |z| > 0.5.
fn nearest_to(j: u32) -> Whole<f32>
    requires { (0x3f000000 < j % 2 ^ 31) × (j % 2 ^ 31 ≤ 0x43160000) }
    ensures result_value { nearest result ≡ nearest_of single j }
    ensures size_bound { result.size < 512 }
{
    let i = j & 0x7fffffff;
    let n = j + (0x00800000 >> ((i >> 23) - 126));
    let k = ((n & 0x7fffffff) >> 23) - 127;
    Whole {
        size: ((n & 0x007fffff) | 0x00800000) >> (23 - k),
        float: f32::from_bits(n & !(0x007fffff >> k)),
    }
}

// The word of a subnormal number times 2^24, by a shift: a multiplication of a subnormal number is slow.
fn normalized(m: u32) -> u32
    requires { m < 2 ^ 23 }
    ensures value { result ≡ Ieee.to_bits Ieee.binary32 (Ieee.mul Ieee.binary32 (Ieee.of_bits Ieee.binary32 m) (con single TWO)) }
    ensures upper_bound { result < 2 ^ 31 }
{
    let s = u32::leading_zeros(m) - 8;
    (((24 - s) as u32) << 23) + (m << s)
}

// The digits of a normal number's word w with the last s cut off: rounded to the nearest, and halfway to the even one.
// That is the word of a subnormal output.
fn lowered(w: u32, s: u32) -> u32
    requires { (1 ≤ s) × (s < 32) }
    ensures { result ≡ (2 ^ 23 + w % 2 ^ 23 + (2 ^ (s - 1) - 1 + (2 ^ 23 + w % 2 ^ 23) / 2 ^ s % 2)) / 2 ^ s }
{
    let m = (w & 0x007fffff) | 0x00800000;
    (m + (((1 << (s - 1)) - 1) + ((m >> s) & 1))) >> s
}

impl Chain for f32 {
    const ONE: f32 = 1.0;

    const MINUS_ONE: f32 = -1.0;

    const TWO: f32 = 2.0;

    const THREE: f32 = 3.0;

    const HALF: f32 = 0.5;

    const QUARTER: f32 = 0.25;

    ghost width = { single };

    ghost ONE = { Ieee.of_bits Ieee.binary32 0x3f800000 };

    ghost MINUS_ONE = { Ieee.of_bits Ieee.binary32 0xbf800000 };

    ghost TWO = { Ieee.of_bits Ieee.binary32 0x40000000 };

    ghost THREE = { Ieee.of_bits Ieee.binary32 0x40400000 };

    ghost HALF = { Ieee.of_bits Ieee.binary32 0x3f000000 };

    ghost QUARTER = { Ieee.of_bits Ieee.binary32 0x3e800000 };

    ghost most_added = { 520 };

    ghost most_reduced = { 600 };

    ghost turnable = { 0x43800000 };

    ghost one_is = { refl };

    ghost plus_is = { refl };

    ghost minus_is = { refl };

    ghost two_is = { refl };

    ghost three_is = { refl };

    ghost half_is = { refl };

    ghost quarter_is = { refl };

    ghost short = { short32 };

    ghost shorter = { shorter32 };

    ghost known = { known32 };

    ghost room = { room32 };

    ghost limits_grow = { lit≤ tt };

    ghost small_turnable = { lit< tt };

    ghost large_finite = { lit< tt };

    ghost high_word = { (23, 126, high32) };

    ghost told_apart = { λ _ _ e. e };

    fn limits() -> Limits {
        Limits {
            huge: 0x4d000000,
            must: 0x80000000,
            less: 0x3f7ffff8,
            more: 0x3f800007,
            one: 0x3f800000,
        }
    }

    fn constant(i: usize) -> f32 {
        f32::of_word(TABLE[i])
    }

    fn pick(at: usize, k: u32) -> f32 {
        let second = k * 0xffffffff;
        f32::from_bits((TABLE[at] & !second) | (TABLE[at + 1] & second))
    }

    fn leading(self) -> f32 {
        f32::from_bits(f32::to_bits(self) & 0xfffff000)
    }

    fn leading_shorter(self) -> f32 {
        f32::from_bits(f32::to_bits(self) & 0xffff8000)
    }

    fn is_clear(x: u32, y: u32) -> bool {
        let base = ((x >= 0x00800000) & (x < 0x7f800000)) & (x != 0x3f800000);
        let exponent = ((y & 0x7fffffff) < 0x4d000001) & ((y & 0x007fffff) > 0);
        base & exponent
    }

    fn high(x: u32) -> u32 {
        x & 0x7fffffff
    }

    fn is_negative(x: u32) -> bool {
        x >= 0x80000000
    }

    fn negated(x: u32) -> u32 {
        std::num::wrapping_add_u32(x, 0x80000000)
    }

    // By sums alone: what sqrt(3) lacks to 2 is added, so that n is one more from there on, and the sign's place is
    // reached from sqrt(3/2) on.
    fn interval(ix: u32, e: u32) -> Reduced<u32> {
        let n = (ix + 0x00224c29) >> 23;
        let z = (ix + 0x3f800000) - (n << 23);
        Reduced {
            ix: z,
            k: (z + 0x40633b8e) >> 31,
            e: e + n,
        }
    }

    fn reduce(ix: u32) -> Reduced<u32> {
        if ix < 0x00800000 {
            f32::interval(normalized(ix), 0)
        } else {
            f32::interval(ix, 24)
        }
    }

    fn head(ix: u32, k: u32) -> f32 {
        let is = ((ix >> 1) & 0xfffff000) | 0x20000000;
        f32::from_bits(is + (0x00400000 + (k << 21)))
    }

    fn exponent(e: u32) -> f32 {
        let n = unbiased(e, 151);
        n as f32
    }

    // Overflow above 128, underflow below -150.
    fn fate_of(hi: f32, lo: f32) -> Fate {
        let z = lo + hi;
        let j = f32::to_bits(z);
        if (j & 0x7fffffff) < 0x43000000 {
            return Fate::Within;
        }
        if j < 0x80000000 {
            if j > 0x43000000 {
                return Fate::Over;
            }
            if lo + f32::constant(OVT) > z - hi {
                return Fate::Over;
            }
            return Fate::Within;
        }
        if j > 0xc3160000 {
            return Fate::Under;
        }
        if j == 0xc3160000 {
            if lo <= z - hi {
                return Fate::Under;
            }
        }
        Fate::Within
    }

    fn is_inside(z: f32) -> bool {
        (f32::to_bits(z) & 0x7fffffff) < 0x43000000
    }

    fn turned(h: f32, z: f32) -> Option<Turn<f32, u32>> {
        let m = z + 12582912.0;
        let t = m - 12582912.0;
        let off = f32::to_bits(z - t) & 0x7fffffff;
        let size = f32::to_bits(z) & 0x7fffffff;
        let sure = (off < 0x3f000000) & (size != 0x3f000000);
        if sure {
            Some(Turn {
                hi: h - t,
                e: f32::to_bits(m) - 0x4b3ffe00,
            })
        } else {
            None
        }
    }

    fn fraction(h: f32, z: f32) -> Turn<f32, u32> {
        if let Some(t) = f32::turned(h, z) {
            return t;
        }
        let j = f32::to_bits(z);
        if (j & 0x7fffffff) > 0x3f000000 {
            let n = nearest_to(j);
            let size = n.size;
            return Turn {
                hi: h - n.float,
                e: if j >= 0x80000000 {
                    512 - size
                } else {
                    512 + size
                },
            };
        }
        Turn { hi: h, e: 512 }
    }

    fn lifted(w: u32, e: u32) -> Option<u32> {
        let r = std::num::wrapping_add_u32(w, e << 23);
        if std::num::wrapping_add_u32(r, 0xff800000) < 0x7f000000 {
            Some(r)
        } else {
            None
        }
    }

    // n is e - 512. A subnormal output is found in whole numbers, since a multiplication that gives one is slow.
    fn raised(z: f32, e: u32) -> u32 {
        let w = f32::to_bits(z);
        let j = std::num::wrapping_add_u32(w, e << 23);
        if std::num::wrapping_add_u32(j, 0xff800000) < 0x7f800000 {
            return j;
        }
        let s = std::num::wrapping_sub_u32(513, (w >> 23) + e);
        if ((w >= 0x00800000) & (w < 0x7f800000)) & ((s > 0) & (s < 32)) {
            return lowered(w, s);
        }
        z.scale(unbiased(e, 512)).to_word()
    }
}
