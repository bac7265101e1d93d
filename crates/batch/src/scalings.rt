// Batches of scalings.
ghost use Rattle.std.specs.Prelude.{◌≡◌, true, ◌≤◌, All, length};
ghost use Rattle.std.specs.Float.Ieee as Ieee;
ghost use Rattle.words.specs.Format.{binary64, infinity, magnitude};
ghost use Rattle.scale.specs.Scale.{scaled};
ghost use Rattle.scale.specs.Steps.{Normal};
ghost use Rattle.batch.specs.Batches.{laid, Matched, most, Zipped, zip_with};

use super::each::each_pair;
use super::outcome::fit;
use super::stretch::STRETCH;
use scale::scaling::Scale;
use std::cmp::min;
use words::refusal::Refusal;

// The way of each width over the whole batch.
pub trait Scalings: Scale {
    fn scalings(xs: &[Self::Word], ns: &[i32], out: &mut [Self::Word])
        requires { Matched xs.now ns.now out.old × (length out.old ≤ most) }
        ensures { out.new ≡ zip_with Self.scaled xs.now ns.now };
}

impl Scalings for f32 {
    // One loop: in a loop within a loop a compiler would take the rare words' way into it.
    fn scalings(xs: &[u32], ns: &[i32], out: &mut [u32]) {
        each_pair(|x, n| f32::scaled(x, n), xs, ns, out);
    }
}

impl Scalings for f64 {
    fn scalings(xs: &[u64], ns: &[i32], out: &mut [u64]) {
        let n = out.len();
        for k in 0..n.div_ceil(STRETCH) {
            let i = k * STRETCH;
            let e = i + min(STRETCH, n - i);
            stretch(&xs[i..e], &ns[i..e], &mut out[i..e]);
        }
    }
}

// A stretch of f64 words. Most are plain, and their loop has no test, so that a compiler can take several elements at once.
fn stretch(xs: &[u64], ns: &[i32], out: &mut [u64])
    requires { Matched xs.now ns.now out.old }
    ensures { out.new ≡ zip_with (scaled binary64) xs.now ns.now }
{
    if numbers(xs) & normal(ns) {
        each_pair(|x, n| f64::near(x, n), xs, ns, out);
    } else {
        each_pair(|x, n| f64::scaled(x, n), xs, ns, out);
    }
}

// Whether no word of a stretch is a NaN's: only a NaN's size carries into the sign's place.
fn numbers(xs: &[u64]) -> bool
    ensures { result ≡ true → All (λ x. magnitude binary64 x ≤ infinity binary64) xs.now }
{
    let mut found: u64 = 0;
    for x in xs {
        found += ((x & 0x7fffffffffffffff) + 0x000fffffffffffff) >> 63;
    }
    found == 0
}

// Whether every number of a stretch is a normal exponent.
fn normal(ns: &[i32]) -> bool
    ensures { result ≡ true → All (λ n. Normal Ieee.binary64 n) ns.now }
{
    let mut far = false;
    for &n in ns {
        far |= (n > 1023) | (n < -1022);
    }
    !far
}

// Each word of xs times 2 to the power of the number beside it.
pub fn scalbn_batch<F: Scalings>(
    xs: &[F::Word],
    ns: &[i32],
    out: &mut [F::Word],
) -> Result<usize, Refusal>
    ensures { Zipped F.scaled xs.now ns.now out.old out.new (laid result) }
{
    let n = out.len();
    fit((xs.len() == n) & (ns.len() == n), n)?;
    F::scalings(xs, ns, out);
    Ok(n)
}
