// What a batch answers, and when it refuses: document 01, "Refusal numbers".
ghost use Rattle.std.specs.Prelude.{◌≡◌};
ghost use Rattle.batch.specs.Batches.{laid, number_in, refusal};

use words::refusal::{DONE, Refusal};

// The most elements that a batch takes.
pub const MOST: usize = 4096;

// A batch's result as C sees it, where a Result cannot go: a refusal number, and how many results were written.
#[repr(C)]
#[derive(Clone, Copy)]
pub struct Batch {
    pub number: u32,
    pub count: usize,
}

impl From<Result<usize, Refusal>> for Batch {
    ghost from_gives = { λ r b. b ≡ laid r };

    fn from(r: Result<usize, Refusal>) -> Self {
        match r {
            Ok(count) => Batch {
                number: DONE,
                count,
            },
            Err(refusal) => Batch {
                number: refusal.number(),
                count: 0,
            },
        }
    }
}

// Whether a batch is taken, of whether all slices have one length and of the length of the results.
pub fn fit(same: bool, n: usize) -> Result<(), Refusal>
    ensures { number_in result ≡ refusal same n }
{
    if !same {
        return Err(Refusal::LengthsDiffer);
    }
    if n > MOST {
        Err(Refusal::TooLong)
    } else {
        Ok(())
    }
}
