// A question at a width: its operands are read as text.
use super::answer::Answer;
use super::name::Function;
use super::operand::{signed, unsigned, word};
use super::wrong::Wrong;
use pow::pow::Pow;
use power::answer::Sorted;
use power::sort::sort_pow;
use root::partial::partial_root;
use words::word::Word;

// A word, or what is wrong with a text that is none.
fn word_of<W: Word>(s: &[u8]) -> Result<W, Wrong> {
    word(s).ok_or(Wrong::NoWord(W::BITS / 4))
}

// The answer to a function's operands, of which a function of one looks at the first alone.
pub fn answered<F: Pow>(function: Function, a: &[u8], b: &[u8]) -> Result<Answer, Wrong> {
    let x = word_of(a)?;
    Ok(match function {
        Function::Fabs => Answer::Word(F::fabs(x).into()),
        Function::Scalbn => Answer::Word(F::scaled(x, signed(b).ok_or(Wrong::NoI32)?).into()),
        Function::Sqrt => Answer::Word(F::root(x).into()),
        Function::PartialSqrt => Answer::Partial(partial_root::<F>(
            x,
            unsigned(b).ok_or(Wrong::NoU32)?,
        )),
        Function::SortPow => Answer::Sorted(match sort_pow::<F>(x, word_of(b)?) {
            Sorted::Settled(w) => Sorted::Settled(w.into()),
            Sorted::Open(negative) => Sorted::Open(negative),
        }),
        Function::Pow => Answer::Word(F::pow(x, word_of(b)?).into()),
    })
}
