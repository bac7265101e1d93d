// The answer that every root and scaling call gives, at every width.
ghost use Rattle.std.specs.Prelude.{◌≡◌};
ghost use Rattle.words.specs.Answers.{answered};

use super::refusal::DONE;

// A refusal number and the result's word, as C sees them; an f32's word stands in the low half.
#[repr(C)]
#[derive(Clone, Copy)]
pub struct Answer {
    pub number: u32,
    pub word: u64,
}

// The answer of a call that does not refuse.
impl From<u64> for Answer {
    ghost from_gives = { λ word a. a ≡ answered word };

    fn from(word: u64) -> Answer {
        Answer { number: DONE, word }
    }
}
