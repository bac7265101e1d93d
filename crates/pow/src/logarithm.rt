// log2(ax) = t1 + t2. A leading part is taken of numbers only: each function asks that the second part
// of its answer is no NaN, so none of the numbers that it is made of is one.
ghost use Rattle.std.specs.Prelude.{◌≡◌, ◌<◌};
ghost use Rattle.std.specs.Float.Ieee.{top};
ghost use Rattle.power.specs.Chain.{quotient_of, series_of, logarithm_of, sum_of, log2_of, far_of, near_of, log_of};
ghost use Rattle.power.specs.NoNan.{Number};
ghost use Rattle.pow.specs.Parts.{of, two, three};

use super::pair::{Pair, split};
use super::steps::Chain;
use super::table::{
    BP, CP, CP_H, CP_L, DP_H, DP_L, IVLN2, IVLN2_H, IVLN2_L, L1, L2, L3, L4, L5, L6, THIRD,
};

// s, and its parts s_h and s_l.
#[derive(Clone, Copy)]
pub struct Ratio<F> {
    pub s: F,
    pub hi: F,
    pub lo: F,
}

// Compute s = s_h + s_l = (x-1)/(x+1) or (x-1.5)/(x+1.5).
#[tactic(auto, unfolding(power::specs::Chain::quotient_of))]
pub fn quotient<F: Chain>(ax: F, bp: F, t_h: F) -> Ratio<F>
    requires { Number (quotient_of (of F.format F.width) (F.value ax) (F.value bp) (F.value t_h)).lo }
    ensures { three F.value result ≡ quotient_of (of F.format F.width) (F.value ax) (F.value bp) (F.value t_h) }
{
    let u = ax - bp;
    let v = F::ONE / (ax + bp);
    let s = u * v;
    let s_h = s.leading();
    let t_l = ax - (t_h - bp);
    let s_l = v * ((u - s_h * t_h) - s_h * t_l);
    Ratio {
        s,
        hi: s_h,
        lo: s_l,
    }
}

// Compute log(ax): r.
#[tactic(auto, unfolding(power::specs::Chain::series_of))]
pub fn series<F: Chain>(q: Ratio<F>) -> F
    ensures { F.value result ≡ series_of (of F.format F.width) (three F.value q) }
{
    let s2 = q.s * q.s;
    let r = s2
        * s2
        * (F::constant(L1)
            + s2 * (F::constant(L2)
                + s2 * (F::constant(L3)
                    + s2 * (F::constant(L4) + s2 * (F::constant(L5) + s2 * F::constant(L6))))));
    r + q.lo * (q.hi + q.s)
}

// p_h + p_l = u + v = s*(1+...).
#[tactic(auto, unfolding(power::specs::Chain::logarithm_of))]
pub fn logarithm<F: Chain>(q: Ratio<F>, r: F) -> Pair<F>
    requires { Number (logarithm_of (of F.format F.width) (three F.value q) (F.value r)).lo }
    ensures { two F.value result ≡ logarithm_of (of F.format F.width) (three F.value q) (F.value r) }
{
    let s2 = q.hi * q.hi;
    let t_h = (F::THREE + s2 + r).leading();
    let t_l = r - ((t_h - F::THREE) - s2);
    let u = q.hi * t_h;
    let v = q.lo * t_h + t_l * q.s;
    split(u, v)
}

// z_h + z_l + dp_h + t in two parts, the first a leading part.
#[tactic(auto, unfolding(power::specs::Chain::sum_of))]
fn sum<F: Chain>(z_h: F, z_l: F, dp_h: F, t: F) -> Pair<F>
    requires { Number (sum_of (of F.format F.width) (F.value z_h) (F.value z_l) (F.value dp_h) (F.value t)).lo }
    ensures { two F.value result ≡ sum_of (of F.format F.width) (F.value z_h) (F.value z_l) (F.value dp_h) (F.value t) }
{
    let t1 = (((z_h + z_l) + dp_h) + t).leading();
    Pair {
        hi: t1,
        lo: z_l - (((t1 - t) - dp_h) - z_h),
    }
}

// t1 + t2 = log2(ax) = (s+..)*2/(3*log2) = n + dp_h + z_h + z_l.
#[tactic(auto, unfolding(power::specs::Chain::log2_of))]
pub fn log2<F: Chain>(p: Pair<F>, dp_h: F, dp_l: F, t: F) -> Pair<F>
    requires { Number (log2_of (of F.format F.width) (two F.value p) (F.value dp_h) (F.value dp_l) (F.value t)).lo }
    ensures { two F.value result ≡ log2_of (of F.format F.width) (two F.value p) (F.value dp_h) (F.value dp_l) (F.value t) }
{
    let z_h = F::constant(CP_H) * p.hi;
    let z_l = F::constant(CP_L) * p.hi + p.lo * F::constant(CP) + dp_l;
    sum(z_h, z_l, dp_h, t)
}

// The logarithm of any ax.
fn far<F: Chain>(ix: F::Word) -> Pair<F>
    requires { (F.Word.number ix < top F.format) × Number (far_of (of F.format F.width) (F.Word.number ix)).lo }
    ensures { two F.value result ≡ far_of (of F.format F.width) (F.Word.number ix) }
{
    let r = F::reduce(ix);
    let k = r.k;
    let q = quotient(F::from_bits(r.ix), F::pick(BP, k), F::head(r.ix, k));
    let p = logarithm(q, series(q));
    log2(p, F::pick(DP_H, k), F::pick(DP_L, k), F::exponent(r.e))
}

// The logarithm of an ax near 1, by x-x^2/2+x^3/3-x^4/4.
#[tactic(auto, unfolding(power::specs::Chain::near_of))]
fn near<F: Chain>(ix: F::Word) -> Pair<F>
    requires { Number (near_of (of F.format F.width) (F.Word.number ix)).lo }
    ensures { two F.value result ≡ near_of (of F.format F.width) (F.Word.number ix) }
{
    let t = F::of_word(ix) - F::ONE;
    let w = (t * t) * (F::HALF - t * (F::constant(THIRD) - t * F::QUARTER));
    let u = F::constant(IVLN2_H) * t;
    let v = t * F::constant(IVLN2_L) - w * F::constant(IVLN2);
    split(u, v)
}

// The logarithm, by whether |y|, of which iy is the high word, is huge.
pub fn log_of<F: Chain>(ix: F::Word, iy: u32) -> Pair<F>
    requires { (F.Word.number ix < top F.format) × Number (log_of (of F.format F.width) (F.Word.number ix) iy).lo }
    ensures { two F.value result ≡ log_of (of F.format F.width) (F.Word.number ix) iy }
{
    if iy > F::limits().huge {
        near(ix)
    } else {
        far(ix)
    }
}
