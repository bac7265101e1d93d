// The sorting of the operands, once for every width.
ghost use Rattle.std.specs.Prelude.{◌≡◌, ◌<◌, ◌*◌, true};
ghost use Rattle.words.specs.Format.{magnitude, ours, top};
ghost use Rattle.power.specs.Sorting.{over, square, sorted7, sorted6, sorted5, sorted, told_by, told_settled, told_open};

use super::answer::Sorted;
use super::edge;
use super::edge::{infinite, is_edge};
use super::operand::Operand;
use super::plain::plain;
use root::root::Root;
use words::width::Width;
use words::word::Word;

// 1 / x, rounded once.
#[tactic(auto, unfolding(crate::specs::Sorting::over))]
fn reciprocal<F: Width>(x: F::Word) -> F::Word
    ensures { F.Word.number result ≡ over F.format (F.Word.number x) }
{
    let one = F::of_word(F::Word::narrow(F::format().one()));
    (one / F::of_word(x)).to_word()
}

// x * x, rounded once.
#[tactic(auto, unfolding(crate::specs::Sorting::square))]
fn square<F: Width>(x: F::Word) -> F::Word
    ensures { F.Word.number result ≡ square F.format (F.Word.number x) }
{
    (F::of_word(x) * F::of_word(x)).to_word()
}

// A pair that is settled with the word n.
fn settle<F: Width>(n: u64) -> Sorted<F::Word>
    requires { n < 2 * top (ours F.format) }
    ensures { told_by F.Word.number result ≡ told_settled n }
{
    Sorted::Settled(F::Word::narrow(n))
}

// Rule 7, and the open pairs, for a negative x.
#[tactic(auto, unfolding(crate::specs::Sorting::sorted7))]
fn sort_minus<F: Width>(iy: u64) -> Sorted<F::Word>
    requires { 0 < iy }
    ensures { told_by F.Word.number result ≡ sorted7 told_settled told_open (ours F.format) true iy }
{
    match edge::sort_minus(F::format(), iy) {
        Sorted::Settled(n) => settle::<F>(n),
        Sorted::Open(negative) => Sorted::Open(negative),
    }
}

// From rule 6 on: x is 0, infinite or 1; x is negative; or x is positive and the pair is open.
#[tactic(auto, unfolding(crate::specs::Sorting::sorted6, crate::specs::Sorting::sorted7))]
fn sort_from6<F: Width>(x: Operand, y: Operand) -> Sorted<F::Word>
    requires size { x.size < top (ours F.format) }
    requires some { 0 < y.size }
    ensures { told_by F.Word.number result ≡ sorted6 told_settled told_open (ours F.format) x.size x.negative y.size y.negative }
{
    let f = F::format();
    if is_edge(f, x.size) {
        return settle::<F>(edge::edge(f, x, y));
    }
    if !x.negative {
        return Sorted::Open(false);
    }
    sort_minus::<F>(y.size)
}

// From rule 5 on: y is 1, -1, 2, or 0.5 with the sign of x clear.
#[tactic(auto, unfolding(crate::specs::Sorting::sorted5))]
fn sort_from5<F: Root>(x: F::Word, y: F::Word) -> Sorted<F::Word>
    requires { 0 < magnitude (ours F.format) (F.Word.number y) }
    ensures { told_by F.Word.number result ≡ sorted5 told_settled told_open F.format (F.Word.number x) (F.Word.number y) }
{
    let f = F::format();
    let one = f.one();
    let n = y.wide();
    let minus = x.wide() >= f.top();
    if n == one {
        return Sorted::Settled(x);
    }
    if n == f.top() + one {
        return Sorted::Settled(reciprocal::<F>(x));
    }
    if n == one + f.hid() {
        return Sorted::Settled(square::<F>(x));
    }
    if n == one - f.hid() && !minus {
        return Sorted::Settled(F::root(x));
    }
    sort_from6::<F>(Operand::of::<F>(x), Operand::of::<F>(y))
}

// From rule 1 on: all seven rules. They are kept out of line, so that a caller takes in the test of
// plain pairs alone.
#[inline(never)]
#[tactic(auto, unfolding(crate::specs::Sorting::sorted))]
fn sort_from1<F: Root>(x: F::Word, y: F::Word) -> Sorted<F::Word>
    ensures { told_by F.Word.number result ≡ sorted told_settled told_open F.format (F.Word.number x) (F.Word.number y) }
{
    let f = F::format();
    let a = Operand::of::<F>(x);
    let b = Operand::of::<F>(y);
    if b.size == 0 || x.wide() == f.one() {
        return settle::<F>(f.one());
    }
    if a.size > f.infinity() || b.size > f.infinity() {
        return settle::<F>(f.quiet());
    }
    if b.size == f.infinity() {
        return settle::<F>(infinite(f, a.size, b.negative));
    }
    sort_from5::<F>(x, y)
}

// The pair settled, with the result's word, or open, with the result's sign. A plain pair is open
// at once; the rules are tried on the others.
#[inline]
#[tactic(auto, using(crate::proofs::Unsettled::plain_open))]
pub fn sort_pow<F: Root>(x: F::Word, y: F::Word) -> Sorted<F::Word>
    ensures { told_by F.Word.number result ≡ sorted told_settled told_open F.format (F.Word.number x) (F.Word.number y) }
{
    if plain::<F>(x, y) {
        return Sorted::Open(false);
    }
    sort_from1::<F>(x, y)
}
