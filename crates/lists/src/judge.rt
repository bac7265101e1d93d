// What the library answers to an operand: the one place that knows which operation is tested, and how its flags
// stand in TestFloat's bits.
ghost use Rattle.std.specs.Prelude.{◌≡◌, not, ◌+◌, ◌*◌, ◌%◌, ◌<◌};
ghost use Rattle.words.specs.Format.{hid, infinity, top};
ghost use Rattle.words.specs.Rounding.{bit};
ghost use Rattle.root.specs.Root.{root_word};
ghost use Rattle.lists.specs.Judge.{exact, root_flags, root_judged};

use root::digits::root_word;
use root::operand::Parts;
use root::root::Root;
use words::format::Format;

// The flags that a root can raise, as TestFloat's bits.
const INEXACT: u64 = 1;

const INVALID: u64 = 16;

// A result's word and its flags.
#[derive(Clone, Copy)]
pub struct Judged {
    pub word: u64,
    pub flags: u64,
}

// The root of a word x, with its flags.
pub fn judge(f: Format, x: u64) -> Judged
    requires { x < 2 * top f }
    ensures value { result ≡ root_judged f x }
    ensures fits { result.word < 2 * top f }
{
    let word = root_of(f, x);
    let flags = flags_of(f, x, word);
    Judged { word, flags }
}

// The root of a word x: f64's and f32's by the library's own calls, any other by digit rounds.
fn root_of(f: Format, x: u64) -> u64
    requires { x < 2 * top f }
    ensures value { result ≡ root_word f x }
    ensures fits { result < 2 * top f }
{
    match (f.digits(), f.emax()) {
        (53, 1023) => f64::root(x),
        (24, 127) => f32::root(x as u32) as u64,
        _ => root_word(f, x),
    }
}

// The flags of the root of a word x: of a signalling NaN and of a negative number it is invalid, and of a positive
// finite number it may be inexact.
#[tactic(auto, using(crate::proofs::Flags::kinds))]
fn flags_of(f: Format, x: u64, root: u64) -> u64
    requires { (x < 2 * top f) × (root ≡ root_word f x) }
    ensures { result ≡ root_flags f x }
{
    let size = f.magnitude(x);
    if f.infinity() < size {
        return if size < f.quiet() { INVALID } else { 0 };
    }
    if size < x {
        return if size == 0 { 0 } else { INVALID };
    }
    if x == 0 || x == f.infinity() || is_exact(f, x, root) {
        0
    } else {
        INEXACT
    }
}

// Whether the root of a positive finite word x is exact: its significand s, squared, is then w with p - 1 zeros
// after it. So s ends in half as many zeros, and t, what stands before them, is squared without a loss.
fn is_exact(f: Format, x: u64, root: u64) -> bool
    requires finite { (0 < x) × (x < infinity f) }
    requires root_value { root ≡ root_word f x }
    ensures value { result ≡ exact f x }
    ensures flags { root_flags f x ≡ bit (not result) }
{
    let o = Parts::of(f, x);
    let s = significand_of(f, root);
    let zeros = f.digits() - 1;
    let half = zeros >> 1;
    let t = s >> half;
    (t << half == s) & (t * t == o.w << (zeros - half - half))
}

// The significand of a normal word.
#[tactic(auto, using(std::proofs::lemmas::Nat::and_mask))]
fn significand_of(f: Format, x: u64) -> u64
    ensures { result ≡ hid f + x % hid f }
{
    let hid = f.hid();
    hid + (x & (hid - 1))
}
