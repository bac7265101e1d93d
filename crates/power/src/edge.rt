// Rules 4, 6 and 7 of the sorting, by sizes and signs.
ghost use Rattle.std.specs.Prelude.{◌≡◌, ◌<◌, ◌*◌, true};
ghost use Rattle.words.specs.Format.{top};
ghost use Rattle.power.specs.Sorting.{at_infinity, turned, at_edge, on_edge, sorted7, told, told_open, told_settled};

use super::answer::Sorted;
use super::kind::{Kind, kind_of};
use super::operand::Operand;
use words::format::Format;

// Rule 4: a power to an infinity, which is below 0 where `down` is true.
#[tactic(auto, unfolding(crate::specs::Sorting::at_infinity))]
pub fn infinite(f: Format, ix: u64, down: bool) -> u64
    ensures value { result ≡ at_infinity f ix down }
    ensures bound { result < top f }
{
    let one = f.one();
    if ix == one {
        one
    } else if (ix > one) == down {
        0
    } else {
        f.infinity()
    }
}

// Rule 6: the size 0, infinite or 1, or one divided by it.
#[tactic(auto, unfolding(crate::specs::Sorting::turned))]
fn turn(f: Format, ix: u64, down: bool) -> u64
    requires { ix < top f }
    ensures value { result ≡ turned f ix down }
    ensures bound { result < top f }
{
    if !down {
        ix
    } else if ix == 0 {
        f.infinity()
    } else if ix == f.infinity() {
        0
    } else {
        ix
    }
}

// Rule 6 with its sign.
#[tactic(auto, unfolding(crate::specs::Sorting::at_edge))]
pub fn edge(f: Format, x: Operand, y: Operand) -> u64
    requires size { x.size < top f }
    requires some { 0 < y.size }
    ensures value { result ≡ at_edge f x.size x.negative y.size y.negative }
    ensures bound { result < 2 * top f }
{
    let z = turn(f, x.size, y.negative);
    if !x.negative {
        return z;
    }
    match kind_of(f, y.size) {
        Kind::Odd => f.top() + z,
        Kind::Fraction if x.size == f.one() => f.quiet(),
        _ => z,
    }
}

// Whether rule 6 is x's: its size is infinite, 0 or 1.
pub fn is_edge(f: Format, ix: u64) -> bool
    ensures { result ≡ on_edge f ix }
{
    ix == f.infinity() || ix == 0 || ix == f.one()
}

// Rule 7, and the open pairs, for a negative x.
#[tactic(auto, unfolding(crate::specs::Sorting::sorted7))]
pub fn sort_minus(f: Format, iy: u64) -> Sorted<u64>
    requires { 0 < iy }
    ensures value { told result ≡ sorted7 told_settled told_open f true iy }
    ensures bound { (told result).word < 2 * top f }
{
    match kind_of(f, iy) {
        Kind::Fraction => Sorted::Settled(f.quiet()),
        Kind::Even => Sorted::Open(false),
        Kind::Odd => Sorted::Open(true),
    }
}
