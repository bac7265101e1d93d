// The table engine: all 54 digits of an f64 root at once. A table gives one over the root, that gives 30
// digits, what they leave gives 24 more, and one test corrects the last.
ghost use Rattle.std.specs.Prelude.{◌≡◌, ◌*◌, ◌%◌, ◌^◌, ◌≤◌, ◌<◌};
ghost use Rattle.words.specs.Format.{binary64, units, infinity};
ghost use Rattle.root.specs.Root.{halves, lifted, root_at, whole_of};
ghost use Rattle.root.specs.Engine.{Normalised, Rounds, place_of};

use super::operand::shift_up;
use super::rounds::Digits;
use recip::reciprocal;

// m * 2^n, and the place of m's first nine digits in the table
#[derive(Clone, Copy)]
struct Operand {
    m: u64,
    n: u64,
    place: u64,
}

impl Operand {
    // A positive finite f64 word x, lifted so that no exponent is negative. Of a normal number the place is the
    // last digit of the exponent's field and the eight digits that follow it.
    fn of(x: u64) -> Operand
        requires { (0 < x) × (x < infinity binary64) }
        ensures normalised { Normalised 53 result.m result.n (lifted binary64 (units binary64 x)) }
        ensures n_bound { (result.n < 2 ^ 12) × (result.place ≡ place_of result.m (result.n % 2)) }
    {
        let field = x >> 52;
        let t = x & 0xf_ffff_ffff_ffff;
        if field == 0 {
            let s = shift_up(t, 53);
            let m = t << s;
            let n = (1022 - s) as u64;
            Operand {
                m,
                n,
                place: ((m >> 44) & 0xff) + (1 - (n & 1)) * 0x100,
            }
        } else {
            Operand {
                m: 0x10_0000_0000_0000 + t,
                n: field + 1021,
                place: (x >> 44) & 0x1ff,
            }
        }
    }
}

// All 54 rounds of w, which is m of 53 digits or twice that: s is the first 30 digits from below, u the
// other 24. The test asks whether t + 1 is too much, and rounds up the square's last digits for that.
fn table_rounds(m: u64, odd: u64, place: u64) -> Digits
    requires { (2 ^ 53 ≤ 2 * m) × (m < 2 ^ 53) × (odd ≤ 1) × (place ≡ place_of m odd) }
    ensures { Rounds 53 (m * 2 ^ odd) 54 result.digits result.left }
{
    let w = m << odd;
    let r = reciprocal(m >> 22, place);
    let s = ((w >> 22) * r) >> 32;
    let lack = w * 0x40 - s * s;
    let room = lack * 0x100_0000;
    let t = (lack * r) >> 37;
    let mut u = t + 1;
    if room < 2 * s * u + ((u * u + 0xff_ffff) >> 24) {
        u = t;
    }
    let rest = (room - 2 * s * u) * 0x100_0000 - u * u;
    Digits {
        digits: s * 0x100_0000 + u,
        left: rest + rest,
    }
}

// Q and the left-over of all rounds, and half, which is E + 1022
#[derive(Clone, Copy)]
struct AllRounds {
    digits: u64,
    left: u64,
    half: u64,
}

// All 54 rounds of a positive finite f64 word x, with the left-over, which flags will need.
fn all_rounds(x: u64) -> AllRounds
    requires { (0 < x) × (x < infinity binary64) }
    ensures rounds { Rounds 53 (whole_of binary64 x) 54 result.digits result.left }
    ensures half_value { result.half ≡ halves 53 (lifted binary64 (units binary64 x)) }
{
    let Operand { m, n, place } = Operand::of(x);
    let Digits { digits, left } = table_rounds(m, n & 1, place);
    AllRounds {
        digits,
        left,
        half: n >> 1,
    }
}

// The root of a positive finite f64 word x: the odd digit raised, and halved.
pub fn table_root(x: u64) -> u64
    requires { (0 < x) × (x < infinity binary64) }
    ensures { result ≡ root_at binary64 (lifted binary64 (units binary64 x)) }
{
    let a = all_rounds(x);
    (a.half << 52) + ((a.digits + 1) >> 1)
}
