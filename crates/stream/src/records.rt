// Streams of records, at each width. Each function answers the whole records of `input`, as many as `out` has room
// for, and returns how many bytes of `out` are answers.
ghost use Rattle.std.specs.Prelude.{◌≡◌, ℕ, List, ◌*◌, ◌+◌, ◌<◌, length};
ghost use Rattle.words.specs.Format.{ours};
ghost use Rattle.power.specs.Power.{pow_of};
ghost use Rattle.stream.specs.Records.{root_of, scaled_of, power_of};
ghost use Rattle.stream.specs.Streams.{Answered};

use super::bytes::LittleEndian;
use pow::pow::Pow;
use root::root::Root;
use scale::scaling::Scale;

// The records are of `size` bytes, and `answer` answers one. Where what it says of each record is f of it, so are
// the answers.
fn answer_each<W: LittleEndian, A: Fn(&[u8]) -> W>(
    input: &[u8],
    size: usize,
    out: &mut [u8],
    answer: A,
) -> usize
    requires some { 0 < size }
    requires takes { (r : _) → length r.now ≡ size → A.pre answer r }
    ensures { (f : List ℕ → ℕ)
        → ((r : _) (w : W) → length r.now ≡ size → A.post answer r w → W.number w ≡ f r.now)
        → Answered size W.SIZE f input.now out.old out.new result }
{
    let mut count = 0;
    for record in input.chunks_exact(size).take(out.len() / W::SIZE) {
        answer(record).put(&mut out[count..]);
        count += W::SIZE;
    }
    count
}

// The root of each x.
pub fn sqrt_bytes<F: Root>(input: &[u8], out: &mut [u8]) -> usize
where
    F::Word: LittleEndian,
    ensures { Answered F.Word.SIZE F.Word.SIZE (root_of (ours F.format)) input.now out.old out.new result }
{
    answer_each(
        input,
        F::Word::SIZE,
        out,
        |x|
            requires { length x.now ≡ F.Word.SIZE }
            ensures { F.Word.number result ≡ root_of (ours F.format) x.now }
        { F::root(F::Word::read(x)) },
    )
}

// Each x times 2^n, where n is an i32 after x.
pub fn scalbn_bytes<F: Scale>(input: &[u8], out: &mut [u8]) -> usize
where
    F::Word: LittleEndian,
    ensures { Answered (F.Word.SIZE + 4) F.Word.SIZE (scaled_of (ours F.format) F.Word.SIZE) input.now out.old out.new result }
{
    answer_each(
        input,
        F::Word::SIZE + 4,
        out,
        |record|
            requires { length record.now ≡ F.Word.SIZE + 4 }
            ensures { F.Word.number result ≡ scaled_of (ours F.format) F.Word.SIZE record.now }
        {
            let n = u32::read(&record[F::Word::SIZE..]).cast_signed();
            F::scaled(F::Word::read(record), n)
        },
    )
}

// Each x to the y, where y is after x.
pub fn pow_bytes<F: Pow>(input: &[u8], out: &mut [u8]) -> usize
where
    F::Word: LittleEndian,
    ensures { Answered (2 * F.Word.SIZE) F.Word.SIZE (power_of (pow_of F.width) F.Word.SIZE) input.now out.old out.new result }
{
    answer_each(
        input,
        2 * F::Word::SIZE,
        out,
        |record|
            requires { length record.now ≡ 2 * F.Word.SIZE }
            ensures { F.Word.number result ≡ power_of (pow_of F.width) F.Word.SIZE record.now }
        {
            let y = F::Word::read(&record[F::Word::SIZE..]);
            F::pow(F::Word::read(record), y)
        },
    )
}
