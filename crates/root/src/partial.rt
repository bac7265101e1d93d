// The root after some of its rounds.
ghost use Rattle.std.specs.Prelude.{◌≡◌};
ghost use Rattle.words.specs.Format.{ours};
ghost use Rattle.root.specs.Partial.{laid, partial_root};

use super::operand::Parts;
use super::rounds::digit_rounds;
use words::format::Format;
use words::refusal::{DONE, Refusal};
use words::width::Width;
use words::word::Word;

// Q, the left-over, and the rounds that were run.
#[derive(Clone, Copy)]
pub struct Partial {
    pub digits: u64,
    pub left: u64,
    pub rounds: u32,
}

// The first k digits of the root of a word x of f.
pub fn partial_of(f: Format, x: u64, k: u32) -> Result<Partial, Refusal>
    ensures { laid result ≡ partial_root f x k }
{
    if x == 0 || f.infinity() <= x {
        return Err(Refusal::NotPositive);
    }
    let p = f.digits();
    if p + 1 < k {
        return Err(Refusal::TooManyRounds);
    }
    let o = Parts::of(f, x);
    let d = digit_rounds(o.w, p, k);
    Ok(Partial {
        digits: d.digits,
        left: d.left,
        rounds: k,
    })
}

// The first k digits of the root of a word of a width.
pub fn partial_root<F: Width>(x: F::Word, k: u32) -> Result<Partial, Refusal>
    ensures { laid result ≡ partial_root (ours F.format) (F.Word.number x) k }
{
    partial_of(F::format(), x.wide(), k)
}

// A partial root as C sees it, where a Result cannot go: a refusal number, Q, the left-over, and the rounds
// that were run; zeros beside the number of a refusal.
#[repr(C)]
#[derive(Clone, Copy)]
pub struct PartialRoot {
    pub number: u32,
    pub digits: u64,
    pub left: u64,
    pub rounds: u32,
}

impl From<Result<Partial, Refusal>> for PartialRoot {
    ghost from_gives = { λ r p. p ≡ laid r };

    fn from(r: Result<Partial, Refusal>) -> PartialRoot {
        match r {
            Ok(p) => PartialRoot {
                number: DONE,
                digits: p.digits,
                left: p.left,
                rounds: p.rounds,
            },
            Err(refusal) => PartialRoot {
                number: refusal.number(),
                digits: 0,
                left: 0,
                rounds: 0,
            },
        }
    }
}
