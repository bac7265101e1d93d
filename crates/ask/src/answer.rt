// What is answered, in a line.
use power::answer::Sorted;
use root::partial::Partial;
use std::fmt;
use words::refusal::Refusal;
use words::word::Word;

// A word in all of its hexadecimal digits. `vectors` has the like: one in `words` would be face for two programs.
#[derive(Clone, Copy)]
pub struct Hex {
    word: u64,
    digits: usize,
}

impl<W: Word> From<W> for Hex {
    fn from(w: W) -> Hex {
        Hex {
            word: w.wide(),
            digits: (W::BITS / 4) as usize,
        }
    }
}

impl fmt::Display for Hex {
    fn fmt<T: fmt::Write>(&self, f: &mut fmt::Formatter<T>) -> fmt::Result {
        let word = self.word;
        let digits = self.digits;
        write!(f, "{word:0digits$x}")
    }
}

#[derive(Clone, Copy)]
pub enum Answer {
    Word(Hex),
    Sorted(Sorted<Hex>),
    Partial(Result<Partial, Refusal>),
}

impl fmt::Display for Answer {
    fn fmt<T: fmt::Write>(&self, f: &mut fmt::Formatter<T>) -> fmt::Result {
        match self {
            Answer::Word(w) => write!(f, "{w}"),
            Answer::Sorted(Sorted::Settled(w)) => write!(f, "settled {w}"),
            Answer::Sorted(Sorted::Open(true)) => f.write_str("open, negative"),
            Answer::Sorted(Sorted::Open(false)) => f.write_str("open, positive"),
            Answer::Partial(Ok(p)) => {
                write!(
                    f,
                    "digits {}, left-over {}, rounds {}",
                    p.digits, p.left, p.rounds
                )
            }
            Answer::Partial(Err(r)) => write!(f, "refused, {}: {r}", r.number()),
        }
    }
}
