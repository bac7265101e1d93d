// Batches of powers.
ghost use Rattle.std.specs.Prelude.{◌≤◌, length};
ghost use Rattle.batch.specs.Batches.{laid, Matched, most, Zipped, zip_with};
ghost use Rattle.batch.specs.Stretches.{Progress};

use super::each::each_pair;
use super::outcome::fit;
use super::stretch::{REST, STRETCH};
use pow::block::{Room, pow_block};
use pow::pow::Pow;
use std::cmp::min;
use words::refusal::Refusal;

// The powers of a batch of 64 pairs or more by blocks; returns how many are done. The last block may begin before the
// end of the one before it; a rest that costs less by single calls is left.
fn blocks<F: Pow>(
    xs: &[F::Word],
    ys: &[F::Word],
    room: &mut Room<F, F::Word>,
    out: &mut [F::Word],
) -> usize
    requires { Matched xs.now ys.now out.old × (64 ≤ length out.old) × (length out.old ≤ most) }
    ensures { Progress (zip_with F.pow xs.now ys.now) out.old result out.new }
{
    let n = out.len();
    let mut done = 0;
    for k in 0..(n - REST).div_ceil(STRETCH) {
        let i = k * STRETCH;
        done = i + min(STRETCH, n - i);
        let a = done - STRETCH;
        pow_block::<F>(&xs[a..done], &ys[a..done], room, &mut out[a..done]);
    }
    done
}

// The blocks of a batch at each width: a room is made where the sizes of its arrays are known.
pub trait Powers: Pow {
    fn in_blocks(xs: &[Self::Word], ys: &[Self::Word], out: &mut [Self::Word]) -> usize
        requires { Matched xs.now ys.now out.old × (64 ≤ length out.old) × (length out.old ≤ most) }
        ensures { Progress (zip_with Self.pow xs.now ys.now) out.old result out.new };
}

impl Powers for f32 {
    fn in_blocks(xs: &[u32], ys: &[u32], out: &mut [u32]) -> usize {
        blocks::<f32>(xs, ys, &mut Room::<f32, u32>::new(), out)
    }
}

impl Powers for f64 {
    fn in_blocks(xs: &[u64], ys: &[u64], out: &mut [u64]) -> usize {
        blocks::<f64>(xs, ys, &mut Room::<f64, u64>::new(), out)
    }
}

// Each word of xs raised to the power of the word beside it.
pub fn pow_batch<F: Powers>(
    xs: &[F::Word],
    ys: &[F::Word],
    out: &mut [F::Word],
) -> Result<usize, Refusal>
    ensures { Zipped F.pow xs.now ys.now out.old out.new (laid result) }
{
    let n = out.len();
    fit((xs.len() == n) & (ys.len() == n), n)?;
    let done = if n < STRETCH {
        0
    } else {
        F::in_blocks(xs, ys, out)
    };
    each_pair(
        |x, y| F::pow(x, y),
        &xs[done..n],
        &ys[done..n],
        &mut out[done..n],
    );
    Ok(n)
}
