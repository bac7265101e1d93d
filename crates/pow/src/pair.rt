// A number in two parts.
ghost use Rattle.std.specs.Prelude.{◌≡◌};
ghost use Rattle.power.specs.Chain.{split_of};
ghost use Rattle.power.specs.NoNan.{Number};
ghost use Rattle.pow.specs.Parts.{of, two};

use super::steps::Chain;

#[derive(Clone, Copy)]
pub struct Pair<F> {
    pub hi: F,
    pub lo: F,
}

// u + v in two parts, the first a leading part. The second is no NaN, so u + v is none.
#[tactic(auto, unfolding(power::specs::Chain::split_of))]
pub fn split<F: Chain>(u: F, v: F) -> Pair<F>
    requires { Number (split_of (of F.format F.width) (F.value u) (F.value v)).lo }
    ensures { two F.value result ≡ split_of (of F.format F.width) (F.value u) (F.value v) }
{
    let h = (u + v).leading();
    Pair {
        hi: h,
        lo: v - (h - u),
    }
}
