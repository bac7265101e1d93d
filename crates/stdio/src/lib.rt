// Standard input and output for the programs. A call that a signal interrupted is made again, and so is one that
// would have had to wait on a descriptor that does not block: at once, so that waiting there keeps a core busy.
// Any other that fails is told in one line on standard error. `read_full` alone tells nothing and makes no call
// again: it returns what came and the error of the read that failed.
#![tactic(auto)]

ghost use Rattle.std.specs.Counts.{IsPrefixLen};
ghost use Rattle.std.specs.Prelude.{ℕ, ◌^◌, ◌<◌, ◌≤◌, length, IfOk};
ghost use Rattle.std.specs.Io.{ReadsAtMost};

use std::fmt::InlineText;
use std::hint::spin_loop;
use std::io;
use std::io::{ErrorKind, Print, Read};

// Reads what has come, as far as buf has room for it, to the start of buf; no bytes at the end of the input. A
// failed read is told, after `cannot` and a colon.
pub fn read(rt: &HostRuntime, buf: &mut [u8], cannot: &[u8]) -> io::Result<usize>
    ensures { ReadsAtMost result buf.new }
{
    read_once(rt, buf).inspect_err(|e| fail(rt, cannot, e))
}

// Writes all of buf. A failed write is told as a failed read is: some of buf may then be written.
pub fn write(rt: &HostRuntime, buf: &[u8], cannot: &[u8]) -> io::Result<()> {
    let mut rest = buf;
    while !rest.is_empty() {
        let put = write_once(rt, rest).inspect_err(|e| fail(rt, cannot, e))?;
        rest = &rest[put..];
    }
    Ok(())
}

// What reading until a buffer is full brought: `count` bytes, and the error that ended it, if one did. No Result
// has both.
#[derive(Clone, Copy)]
pub struct Filled {
    pub count: usize,
    pub ended: io::Result<()>,
}

// Reads until buf is full, the input ends or a read fails. The bytes stand at the start of buf.
pub fn read_full(rt: &HostRuntime, buf: &mut [u8]) -> Filled
    ensures { IsPrefixLen result.count buf.new }
{
    let mut input = rt.stdin();
    let mut count = 0;
    while count < buf.len() {
        match input.read(&mut buf[count..]) {
            Ok(0) => break,
            Ok(n) => count += n,
            Err(e) => {
                return Filled {
                    count,
                    ended: Err(e),
                };
            }
        }
    }
    Filled {
        count,
        ended: Ok(()),
    }
}

// Writes the answers to all of the input, a piece of IN bytes after the other: `answer` puts those to a piece in
// room for OUT bytes and returns how many bytes they are. What came before a failed read is answered, and then
// the error is returned.
// A proved loop has to end, and nothing says that the input does: no input has this many pieces.
pub fn answer_pieces<const IN: usize, const OUT: usize, A: Fn(&[u8], &mut [u8]) -> usize>(
    rt: &HostRuntime,
    answer: A,
) -> io::Result<()>
    requires fits { (IN < 2 ^ 63) × (OUT < 2 ^ 63) }
    requires takes { A.IsAlwaysCallable answer }
    requires within { (piece : _) (room : _) (n : ℕ) (filled : _) → A.post answer piece room n filled → n ≤ length filled.now }
{
    for _ in 0..u64::MAX {
        if !answer_piece::<IN, OUT, _>(rt, &answer)? {
            break;
        }
    }
    Ok(())
}

// One piece: read until it is full or the input ends, so that only the last piece can be cut off, however the
// input is delivered. Returns whether to go on: a short piece is the last.
fn answer_piece<const IN: usize, const OUT: usize, A: Fn(&[u8], &mut [u8]) -> usize>(
    rt: &HostRuntime,
    answer: &A,
) -> io::Result<bool>
    requires fits { (IN < 2 ^ 63) × (OUT < 2 ^ 63) }
    requires takes { A.IsAlwaysCallable answer.now }
    requires within { (piece : _) (room : _) (n : ℕ) (filled : _) → A.post answer.now piece room n filled → n ≤ length filled.now }
{
    let mut piece = [0u8; IN];
    let got = read_full(rt, &mut piece);
    let mut room = [0u8; OUT];
    let n = answer(&piece[..got.count], &mut room);
    rt.write_all(&room[..n])?;
    got.ended?;
    Ok(got.count == IN)
}

// What a read answers that need not be made again. Its loop and the one of `write_once` are two: one that takes the
// call would have to promise, of each state that the call leaves, how long the buffer in it is.
fn read_once(rt: &HostRuntime, buf: &mut [u8]) -> io::Result<usize>
    ensures { ReadsAtMost result buf.new }
{
    let mut input = rt.stdin();
    for _ in 0..u64::MAX {
        match input.read(buf) {
            Err(e) if again(&e) => {}
            answer => return answer,
        }
    }
    Err(io::Error::from(ErrorKind::TimedOut))
}

// What a write answers that need not be made again. One that takes nothing of what there is has failed.
fn write_once(rt: &HostRuntime, buf: &[u8]) -> io::Result<usize>
    ensures { IfOk result (λ put. (0 < put) × (put ≤ length buf.now)) }
{
    for _ in 0..u64::MAX {
        match rt.write_some(buf) {
            Ok(0) => return Err(io::Error::from(ErrorKind::WriteZero)),
            Err(e) if again(&e) => {}
            answer => return answer,
        }
    }
    Err(io::Error::from(ErrorKind::TimedOut))
}

// Whether a call that has just failed is to be made again.
fn again(e: &io::Error) -> bool {
    let kind = e.kind();
    if kind == ErrorKind::WouldBlock {
        spin_loop();
        return true;
    }
    kind == ErrorKind::Interrupted
}

// Writes a line to standard error: what failed, as the caller names it, a colon and the error's text. After the
// system's own text std puts the error's number, which the line leaves out.
fn fail(rt: &HostRuntime, what: &[u8], e: &io::Error) {
    let told = InlineText::<256>::of(e);
    let told = told.as_str();
    let text = told
        .split_once(" (os error ")
        .map_or(told, |(text, _)| text);
    let _ = rt.stderr().write_all(what);
    let _ = eprintln!(rt; ": {text}");
}
