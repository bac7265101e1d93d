// Batches of roots.
ghost use Rattle.batch.specs.Batches.{laid, Mapped};

use super::each::each;
use super::outcome::fit;
use root::root::Root;
use words::refusal::Refusal;

// The root of each word of xs.
pub fn sqrt_batch<F: Root>(xs: &[F::Word], out: &mut [F::Word]) -> Result<usize, Refusal>
    ensures { Mapped F.root xs.now out.old out.new (laid result) }
{
    let n = out.len();
    fit(xs.len() == n, n)?;
    each(|x| F::root(x), xs, out);
    Ok(n)
}
