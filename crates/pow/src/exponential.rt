// 2**(p_h + p_l), where it is within the format.
ghost use Rattle.std.specs.Prelude.{◌≡◌, to_bits};
ghost use Rattle.std.specs.Float.Ieee.{add};
ghost use Rattle.power.specs.declared.answer.Fate.TheVariants.{Over, Under, Within};
ghost use Rattle.power.specs.Chain.{product_of, fate_of, parts_of, exponential_of, exp2_of};
ghost use Rattle.power.specs.NoNan.{Number, Raisable};
ghost use Rattle.pow.specs.Parts.{of, two};

use super::pair::Pair;
use super::steps::Chain;
use super::table::{LG2, LG2_H, LG2_L, P1, P2, P3, P4, P5};

// What is left of p_h, and n with what a width adds to it.
#[derive(Clone, Copy)]
pub struct Turn<F, W> {
    pub hi: F,
    pub e: W,
}

// The whole number nearest to z, by its size and as a float.
#[derive(Clone, Copy)]
pub struct Whole<F> {
    pub size: u32,
    pub float: F,
}

// Split up y into y1 + y2 and compute p_h + p_l = (y1 + y2) * (t1 + t2).
#[tactic(auto, unfolding(power::specs::Chain::product_of))]
pub fn product<F: Chain>(y: F, t: Pair<F>) -> Pair<F>
    requires { Number (F.value y) }
    ensures { two F.value result ≡ product_of (of F.format F.width) (F.value y) (two F.value t) }
{
    let y1 = y.leading();
    Pair {
        hi: y1 * t.hi,
        lo: (y - y1) * t.hi + y * t.lo,
    }
}

// z and w: (p_h + p_l) * log 2 in two parts.
#[tactic(auto, unfolding(power::specs::Chain::parts_of))]
pub fn parts<F: Chain>(p: Pair<F>) -> Pair<F>
    requires { Number (add F.format (F.value p.lo) (F.value p.hi)) }
    ensures { two F.value result ≡ parts_of (of F.format F.width) (two F.value p) }
{
    let t = (p.lo + p.hi).leading_shorter();
    let u = t * F::constant(LG2_H);
    let v = (p.lo - (t - p.hi)) * F::constant(LG2) + t * F::constant(LG2_L);
    let z = u + v;
    Pair {
        hi: z,
        lo: v - (z - u),
    }
}

// 1 - (r - z), with z and w in `hi` and `lo`.
#[tactic(auto, unfolding(power::specs::Chain::exponential_of))]
pub fn exponential<F: Chain>(q: Pair<F>) -> F
    ensures { F.value result ≡ exponential_of (of F.format F.width) (two F.value q) }
{
    let z = q.hi;
    let w = q.lo;
    let t = z * z;
    let t1 = z
        - t * (F::constant(P1)
            + t * (F::constant(P2)
                + t * (F::constant(P3) + t * (F::constant(P4) + t * F::constant(P5)))));
    let r = (z * t1) / (t1 - F::TWO) - (w + z * w);
    F::ONE - (r - z)
}

// The word of 2**(p_h + p_l), where it is within the format.
pub fn exp2<F: Chain>(p: Pair<F>) -> F::Word
    requires p_value { fate_of (of F.format F.width) Over Under Within (two F.value p) ≡ Within }
    requires raisable { Raisable (of F.format F.width) (two F.value p) }
    ensures { F.Word.number result ≡ to_bits F.format (exp2_of (of F.format F.width) (two F.value p)) }
{
    let f = F::fraction(p.hi, p.lo + p.hi);
    let q = Pair { hi: f.hi, lo: p.lo };
    F::raised(exponential(parts(q)), f.e)
}
