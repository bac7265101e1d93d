// Scaling of f64 words.
ghost use Rattle.std.specs.Prelude.{◌≡◌, ◌≤◌, refl};
ghost use Rattle.words.specs.Format.{binary64, infinity, magnitude};
ghost use Rattle.scale.specs.Scale as Words;
ghost use Rattle.scale.specs.Scale.{scaled};

use super::scaling::Scale;
use super::{float, word};

impl Scale for f64 {
    ghost scaled = { Words.scaled binary64 };

    ghost scaled_is = { λ _ _. refl };

    fn scale(self, n: i32) -> f64 {
        float::scale(self, n)
    }

    fn near(x: u64, n: i32) -> u64 {
        word::near::<f64>(x, n)
    }

    // Only a NaN's word gives the NaN; the shift drops the sign. The common way stands first, so that no
    // jump is taken on it: with two, the time of a call depends on where it stands in a program.
    fn scaled(x: u64, n: i32) -> u64 {
        if (x << 1) <= 0xffe0000000000000 {
            if float::is_normal::<f64>(n) {
                f64::near(x, n)
            } else {
                number(x, n)
            }
        } else {
            0x7ff8000000000000
        }
    }
}

// The word of x times 2^n for a word that is no NaN's.
fn number(x: u64, n: i32) -> u64
    requires { magnitude binary64 x ≤ infinity binary64 }
    ensures { result ≡ scaled binary64 x n }
{
    match word::limit::<f64>(x, n) {
        Some(r) => r,
        None => f64::to_bits(f64::from_bits(x).scale(n)),
    }
}
