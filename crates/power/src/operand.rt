// An operand as the rules read it.
ghost use Rattle.std.specs.Prelude.{◌≡◌};
ghost use Rattle.words.specs.Format.{magnitude, negative, ours};

use words::width::Width;
use words::word::Word;

// The word without its sign, and whether the sign is set.
#[derive(Clone, Copy)]
pub struct Operand {
    pub size: u64,
    pub negative: bool,
}

impl Operand {
    pub fn of<F: Width>(w: F::Word) -> Self
        ensures size { result.size ≡ magnitude (ours F.format) (F.Word.number w) }
        ensures sign { result.negative ≡ negative (ours F.format) (F.Word.number w) }
    {
        Operand {
            size: F::fabs(w).wide(),
            negative: w.wide() >= F::format().top(),
        }
    }
}
