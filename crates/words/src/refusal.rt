// The refusals of document 01, and their numbers.
ghost use Rattle.std.specs.Prelude.{◌≡◌};
ghost use Rattle.words.specs.Refusal.{number_of};

use std::error::Error;
use std::fmt;

// Why a call refuses.
#[derive(Clone, Copy, Debug, PartialEq, Eq)]
pub enum Refusal {
    // Operand and result slices are not all of one length.
    LengthsDiffer,
    // Lengths agree and exceed the limit.
    TooLong,
    // A partial root of a zero, negative, infinite or NaN operand.
    NotPositive,
    // The operand is fit, but more rounds are asked than there are digits.
    TooManyRounds,
}

impl Refusal {
    pub fn number(self) -> u32
        ensures { result ≡ number_of self }
    {
        match self {
            Refusal::LengthsDiffer => 1,
            Refusal::TooLong => 2,
            Refusal::NotPositive => 3,
            Refusal::TooManyRounds => 4,
        }
    }
}

// The number where nothing is refused.
pub const DONE: u32 = 0;

// What the refusal says, in words.
impl fmt::Display for Refusal {
    ghost use Rattle.std.specs.Prelude.{Some};
    ghost use Rattle.words.specs.Refusal.{words_of};

    ghost output = { λ r. Some (words_of r) };

    fn fmt<W: fmt::Write>(&self, f: &mut fmt::Formatter<W>) -> fmt::Result {
        match self {
            Refusal::LengthsDiffer => f.write_str("the slices are not all of one length"),
            Refusal::TooLong => f.write_str("more elements than a batch has"),
            Refusal::NotPositive => f.write_str("the operand is zero, negative, infinite or NaN"),
            Refusal::TooManyRounds => f.write_str("more rounds than the root has digits"),
        }
    }
}

impl Error for Refusal {}
