// The C face: each public function under the prefix `igholmaz_`, with the promise of the function
// that it calls. Words are IEEE 754 interchange bit patterns; nothing is asked of the caller.
#![tactic(auto)]

ghost use Rattle.std.specs.Prelude.{◌≡◌};
ghost use Rattle.words.specs.Format.{binary32, binary64, magnitude};
ghost use Rattle.words.specs.Answers.{answered};
ghost use Rattle.root.specs.Root.{root_word};
ghost use Rattle.root.specs.Partial.{partial_root};
ghost use Rattle.scale.specs.Scale.{scaled};
ghost use Rattle.std.specs.Float.Ieee as Ieee;
ghost use Rattle.power.specs.Power.{pow32, pow64};
ghost use Rattle.power.specs.Sorting.{sorted, told_settled, told_open};
ghost use Rattle.igholmaz.specs.Face.{laid};
ghost use Rattle.batch.specs.Batches.{Mapped, Zipped};
ghost use Rattle.lists.specs.Reader.{Started, Fed, Finished};

use batch::outcome::Batch;
use lists::reader::State;
use lists::tally::Tally;
use pow::pow::Pow;
use power::sort::sort_pow;
use root::digits::root_digits;
use root::partial::{PartialRoot, partial_root};
use root::root::Root;
use scale::scaling::Scale;
use sorting::SortedPower;
use words::answer::Answer;
use words::width::Width;

mod sorting;

#[unsafe(no_mangle)]
pub extern "C" fn igholmaz_fabsf(x: u32) -> u32
    ensures { result ≡ magnitude binary32 x }
{
    f32::fabs(x)
}

#[unsafe(no_mangle)]
pub extern "C" fn igholmaz_fabsd(x: u64) -> u64
    ensures { result ≡ magnitude binary64 x }
{
    f64::fabs(x)
}

#[unsafe(no_mangle)]
pub extern "C" fn igholmaz_scalbnf(x: u32, n: i32) -> Answer
    ensures { result ≡ answered (scaled binary32 x n) }
{
    Answer::from(f32::scaled(x, n) as u64)
}

#[unsafe(no_mangle)]
pub extern "C" fn igholmaz_scalbnd(x: u64, n: i32) -> Answer
    ensures { result ≡ answered (scaled binary64 x n) }
{
    Answer::from(f64::scaled(x, n))
}

#[unsafe(no_mangle)]
pub extern "C" fn igholmaz_sqrtf(x: u32) -> Answer
    ensures { result ≡ answered (root_word binary32 x) }
{
    Answer::from(f32::root(x) as u64)
}

#[unsafe(no_mangle)]
pub extern "C" fn igholmaz_sqrtd(x: u64) -> Answer
    ensures { result ≡ answered (root_word binary64 x) }
{
    Answer::from(f64::root(x))
}

#[unsafe(no_mangle)]
pub extern "C" fn igholmaz_sqrtf_digits(x: u32) -> Answer
    ensures { result ≡ answered (root_word binary32 x) }
{
    Answer::from(root_digits::<f32>(x) as u64)
}

#[unsafe(no_mangle)]
pub extern "C" fn igholmaz_sqrtd_digits(x: u64) -> Answer
    ensures { result ≡ answered (root_word binary64 x) }
{
    Answer::from(root_digits::<f64>(x))
}

#[unsafe(no_mangle)]
pub extern "C" fn igholmaz_partial_sqrtf(x: u32, rounds: u32) -> PartialRoot
    ensures { result ≡ partial_root binary32 x rounds }
{
    PartialRoot::from(partial_root::<f32>(x, rounds))
}

#[unsafe(no_mangle)]
pub extern "C" fn igholmaz_partial_sqrtd(x: u64, rounds: u32) -> PartialRoot
    ensures { result ≡ partial_root binary64 x rounds }
{
    PartialRoot::from(partial_root::<f64>(x, rounds))
}

#[unsafe(no_mangle)]
pub extern "C" fn igholmaz_sqrtf_batch(xs: &[u32], out: &mut [u32]) -> Batch
    ensures { Mapped (root_word binary32) xs.now out.old out.new result }
{
    Batch::from(batch::roots::sqrt_batch::<f32>(xs, out))
}

#[unsafe(no_mangle)]
pub extern "C" fn igholmaz_sqrtd_batch(xs: &[u64], out: &mut [u64]) -> Batch
    ensures { Mapped (root_word binary64) xs.now out.old out.new result }
{
    Batch::from(batch::roots::sqrt_batch::<f64>(xs, out))
}

#[unsafe(no_mangle)]
pub extern "C" fn igholmaz_sqrtf_digits_batch(xs: &[u32], out: &mut [u32]) -> Batch
    ensures { Mapped (root_word binary32) xs.now out.old out.new result }
{
    Batch::from(batch::digits::sqrt_digits_batch::<f32>(xs, out))
}

#[unsafe(no_mangle)]
pub extern "C" fn igholmaz_sqrtd_digits_batch(xs: &[u64], out: &mut [u64]) -> Batch
    ensures { Mapped (root_word binary64) xs.now out.old out.new result }
{
    Batch::from(batch::digits::sqrt_digits_batch::<f64>(xs, out))
}

#[unsafe(no_mangle)]
pub extern "C" fn igholmaz_scalbnf_batch(xs: &[u32], ns: &[i32], out: &mut [u32]) -> Batch
    ensures { Zipped (scaled binary32) xs.now ns.now out.old out.new result }
{
    Batch::from(batch::scalings::scalbn_batch::<f32>(xs, ns, out))
}

#[unsafe(no_mangle)]
pub extern "C" fn igholmaz_scalbnd_batch(xs: &[u64], ns: &[i32], out: &mut [u64]) -> Batch
    ensures { Zipped (scaled binary64) xs.now ns.now out.old out.new result }
{
    Batch::from(batch::scalings::scalbn_batch::<f64>(xs, ns, out))
}

#[unsafe(no_mangle)]
pub extern "C" fn igholmaz_sort_powf(x: u32, y: u32) -> SortedPower
    ensures { result ≡ laid (sorted told_settled told_open Ieee.binary32 x y) }
{
    SortedPower::from(sort_pow::<f32>(x, y))
}

#[unsafe(no_mangle)]
pub extern "C" fn igholmaz_powf(x: u32, y: u32) -> u32
    ensures { result ≡ pow32 x y }
{
    f32::pow(x, y)
}

#[unsafe(no_mangle)]
pub extern "C" fn igholmaz_sort_powd(x: u64, y: u64) -> SortedPower
    ensures { result ≡ laid (sorted told_settled told_open Ieee.binary64 x y) }
{
    SortedPower::from(sort_pow::<f64>(x, y))
}

#[unsafe(no_mangle)]
pub extern "C" fn igholmaz_powd(x: u64, y: u64) -> u64
    ensures { result ≡ pow64 x y }
{
    f64::pow(x, y)
}

#[unsafe(no_mangle)]
pub extern "C" fn igholmaz_powf_batch(xs: &[u32], ys: &[u32], out: &mut [u32]) -> Batch
    ensures { Zipped pow32 xs.now ys.now out.old out.new result }
{
    Batch::from(batch::powers::pow_batch::<f32>(xs, ys, out))
}

#[unsafe(no_mangle)]
pub extern "C" fn igholmaz_powd_batch(xs: &[u64], ys: &[u64], out: &mut [u64]) -> Batch
    ensures { Zipped pow64 xs.now ys.now out.old out.new result }
{
    Batch::from(batch::powers::pow_batch::<f64>(xs, ys, out))
}

#[unsafe(no_mangle)]
pub extern "C" fn igholmaz_testfloat_start() -> State
    ensures { Started result }
{
    lists::reader::start()
}

#[unsafe(no_mangle)]
pub extern "C" fn igholmaz_testfloat_feed(state: State, piece: &[u8]) -> State
    ensures { Fed state piece.now result }
{
    lists::reader::feed(state, piece)
}

#[unsafe(no_mangle)]
pub extern "C" fn igholmaz_testfloat_finish(state: State) -> Tally
    ensures { Finished state result }
{
    lists::reader::finish(state)
}
