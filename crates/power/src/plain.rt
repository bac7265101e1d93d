// The plain pairs, which no rule of the sorting settles: nearly all that are asked.
ghost use Rattle.std.specs.Prelude.{◌≡◌};
ghost use Rattle.words.specs.Format.{ours};
ghost use Rattle.power.specs.Plain.{plain};

use words::width::Width;
use words::word::Word;

// A positive finite x but 1, and a finite y but 0, 1, -1, 2 and 0.5.
pub fn plain<F: Width>(x: F::Word, y: F::Word) -> bool
    ensures { result ≡ plain (ours F.format) (F.Word.number x) (F.Word.number y) }
{
    let f = F::format();
    let one = f.one();
    let infinity = f.infinity();
    let iy = F::fabs(y).wide();
    let x = x.wide();
    let y = y.wide();
    let base = (0 < x) & ((x < infinity) & (x != one));
    let finite = (0 < iy) & (iy < infinity);
    let unnamed = ((y != one) & (y != f.top() + one))
        & ((y != one + f.hid()) & (y != one - f.hid()));
    base & (finite & unnamed)
}
