// A line of a list: W digits of the operand, W of the result and 2 of the flags, one blank between, W 4, 8 or 16.
// Any other is malformed.
ghost use Rattle.std.specs.Prelude.{◌≡◌, ◌+◌, ◌*◌, ◌^◌, ◌<◌, ◌≤◌, length};
ghost use Rattle.words.specs.Format.{top};
ghost use Rattle.lists.specs.Judge.{root_judged};
ghost use Rattle.lists.specs.Lines.{same_result, agree, numbers, verdict_at, verdict};

use super::digits::hex_number;
use super::judge::judge;
use words::format::Format;

#[derive(Clone, Copy, Debug, PartialEq, Eq)]
pub enum Verdict {
    Malformed,
    Agrees,
    Disagrees,
}

// The verdict on a line: its length tells the width.
#[tactic(auto, using(crate::proofs::Verdicts::widths))]
pub fn verdict_of(s: &[u8]) -> Verdict
    ensures { result ≡ verdict root_judged s.now }
{
    match s.len() {
        12 => verdict_at(s, 4, Format::binary16()),
        20 => verdict_at(s, 8, Format::binary32()),
        36 => verdict_at(s, 16, Format::binary64()),
        _ => Verdict::Malformed,
    }
}

// The verdict on a line as long as one whose words have w hexadecimal digits.
#[tactic(auto, using(crate::proofs::Verdicts::small))]
fn verdict_at(s: &[u8], w: usize, f: Format) -> Verdict
    requires words { (2 ^ (4 * w) ≡ 2 * top f) × (w ≤ 16) }
    requires s_len { length s.now ≡ w + 1 + w + 1 + 2 }
    ensures { result ≡ verdict_at root_judged f w s.now }
{
    match numbers_of(s, w) {
        None => Verdict::Malformed,
        Some(n) if agrees(f, n) => Verdict::Agrees,
        Some(_) => Verdict::Disagrees,
    }
}

// The numbers of a well-formed line.
#[derive(Clone, Copy)]
struct Numbers {
    operand: u64,
    result: u64,
    flags: u64,
}

// The numbers of a line as long as one whose words have w hexadecimal digits, if it is well formed.
#[tactic(auto, using(crate::proofs::Verdicts::reads))]
fn numbers_of(s: &[u8], w: usize) -> Option<Numbers>
    requires { (w ≤ 16) × (length s.now ≡ w + 1 + w + 1 + 2) }
    ensures { result ≡ numbers w s.now }
{
    let a = w + 1;
    let b = a + w;
    if s[w] != b' ' || s[b] != b' ' {
        return None;
    }
    Some(Numbers {
        operand: hex_number(&s[..w])?,
        result: hex_number(&s[a..b])?,
        flags: hex_number(&s[b + 1..])?,
    })
}

// Whether the library answers a line's result and flags to its operand.
fn agrees(f: Format, n: Numbers) -> bool
    requires { (n.operand < 2 * top f) × (n.result < 2 * top f) }
    ensures { result ≡ agree (root_judged f n.operand) f n.result n.flags }
{
    let j = judge(f, n.operand);
    same_result(f, j.word, n.result) && j.flags == n.flags
}

// Whether two results are the same word, or both NaNs.
fn same_result(f: Format, a: u64, b: u64) -> bool
    requires { (a < 2 * top f) × (b < 2 * top f) }
    ensures { result ≡ same_result f a b }
{
    if f.is_nan(a) { f.is_nan(b) } else { a == b }
}
