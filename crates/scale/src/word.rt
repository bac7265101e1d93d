// Scaling of words at each width: the ways that both take.
ghost use Rattle.std.specs.Prelude.{◌≡◌, ◌+◌, ◌^◌, ◌<◌, ◌≤◌, ◌≤ℤ◌, suc, pos, IfSome, IsNone};
ghost use Rattle.std.specs.Float.Ieee as Ieee;
ghost use Rattle.words.specs.Format.{infinity, magnitude, ours};
ghost use Rattle.scale.specs.Scale.{scaled};
ghost use Rattle.scale.specs.Steps.{Normal};

use super::float::power;
use words::width::Width;
use words::word::Word;

// The word of x times 2^n for a word that is no NaN's and a normal exponent n: one multiplication.
pub fn near<F: Width>(x: F::Word, n: i32) -> F::Word
    requires word { F.Word.number x < 2 ^ F.Word.BITS }
    requires x_bound { magnitude (ours F.format) (F.Word.number x) ≤ infinity (ours F.format) }
    requires normal { Normal F.format n }
    ensures { F.Word.number result ≡ scaled (ours F.format) (F.Word.number x) n }
{
    F::to_bits(F::from_bits(x) * power(n))
}

// The word of x times 2^n for a word that is no NaN's, where that takes no product: zeros and infinities
// are unchanged, and any other number is an infinity more than 277 or 2098 places up, and a zero more
// than that down. The test for infinity stands twice, behind that of n: beside the test for zero a compiler makes
// one of the two, which takes longer.
pub fn limit<F: Width>(x: F::Word, n: i32) -> Option<F::Word>
    requires { magnitude (ours F.format) (F.Word.number x) ≤ infinity (ours F.format) }
    ensures some { IfSome result (λ r. F.Word.number r ≡ scaled (ours F.format) (F.Word.number x) n) }
    ensures finite { IsNone result → magnitude (ours F.format) (F.Word.number x) < infinity (ours F.format) }
    ensures within { IsNone result → n ≤ℤ pos (Ieee.low F.format + suc (Ieee.emax F.format)) }
{
    let format = F::format();
    let infinity = format.infinity();
    let word = x.wide();
    let size = F::fabs(x).wide();
    let up = (2 * format.emax() + format.digits() - 1) as i32;
    let down = -up;
    if size == 0 {
        Some(x)
    } else if n > up || n < down {
        let sign = word & format.top();
        if size >= infinity {
            Some(x)
        } else if n > 0 {
            Some(F::Word::narrow(sign | infinity))
        } else {
            Some(F::Word::narrow(sign))
        }
    } else if size >= infinity {
        Some(x)
    } else {
        None
    }
}
