// The sorting's answer as C sees it, where an enum cannot go.
ghost use Rattle.std.specs.Prelude.{◌≡◌};
ghost use Rattle.power.specs.Sorting.{told_by};
ghost use Rattle.igholmaz.specs.Face.{laid};

use power::answer::Sorted;
use words::refusal::DONE;
use words::word::Word;

// A refusal number, which is 0; whether the pair is open; an open result's sign, true for negative;
// a settled result's word, an f32's in the low half.
#[repr(C)]
#[derive(Clone, Copy)]
pub struct SortedPower {
    pub number: u32,
    pub open: bool,
    pub negative: bool,
    pub word: u64,
}

impl<W: Word> From<Sorted<W>> for SortedPower {
    ghost from_gives = { λ s p. p ≡ laid (told_by W.number s) };

    fn from(s: Sorted<W>) -> SortedPower {
        match s {
            Sorted::Settled(w) => SortedPower {
                number: DONE,
                open: false,
                negative: false,
                word: w.wide(),
            },
            Sorted::Open(minus) => SortedPower {
                number: DONE,
                open: true,
                negative: minus,
                word: 0,
            },
        }
    }
}
