// Scaling at each width. That a float is one of the format and a word one of the width is known of f32, f64
// and their words, and not in code over F: so `scale` and `near` are methods, and each impl hands them on.
ghost use Rattle.std.specs.Prelude.{◌≡◌, ◌≤◌, ℤ};
ghost use Rattle.std.specs.Float.Ieee as Ieee;
ghost use Rattle.words.specs.Format.{infinity, magnitude, ours};
ghost use Rattle.scale.specs.Scale as Words;
ghost use Rattle.scale.specs.Scale.{power};
ghost use Rattle.scale.specs.Steps.{Normal};

use words::width::Width;

pub trait Scale: Width {
    // Every word times 2 to the power of a number.
    ghost scaled: { Self.Word → ℤ → Self.Word };

    // x times 2^n, rounded once.
    fn scale(self, n: i32) -> Self
        ensures { Self.value result ≡ Ieee.mul Self.format (Self.value self) (power n) };

    // The word of x times 2^n for a word that is no NaN's and a normal exponent n: one multiplication.
    fn near(x: Self::Word, n: i32) -> Self::Word
        requires x_bound { magnitude (ours Self.format) (Self.Word.number x) ≤ infinity (ours Self.format) }
        requires normal { Normal Self.format n }
        ensures { result ≡ scaled x n };

    // The word of x times 2^n, as a plain word.
    fn scaled(x: Self::Word, n: i32) -> Self::Word
        ensures { result ≡ scaled x n };

    ghost scaled_is: { (x : Self.Word) (n : ℤ) → Self.Word.number (scaled x n) ≡ Words.scaled (ours Self.format) (Self.Word.number x) n };
}
