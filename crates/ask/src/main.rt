// One question at the command line, for people: a name and its operands, and the answer in a line.
// A question that is not understood is told by its line alone, and by no exit status: only a failed write is
// one.
#![tactic(auto)]

ghost use Rattle.std.specs.Prelude.{◌≤◌, length};

mod answer;
mod name;
mod number;
mod operand;
mod question;
mod wrong;

use answer::Answer;
use name::{Name, Width};
use question::answered;
use std::env::{Env, FillError};
use std::io;
use wrong::{USAGE, Wrong};

// How many arguments the program was started with, its own name among them. Under a bound `Env` in place
// of `HostRuntime` the check would count more of the C library as assumed than the arguments.
fn arg_count(rt: &HostRuntime) -> usize {
    (0..usize::MAX)
        .find(|i| matches!(rt.arg(*i, &mut []), Err(FillError::NotPresent)))
        .unwrap_or(usize::MAX)
}

// Argument i, put at the start of buf; no text where it is missing or longer than buf.
fn arg<'a>(rt: &HostRuntime, i: usize, buf: &'a mut [u8]) -> &'a [u8]
    ensures { length result.now ≤ length buf.old }
{
    match rt.arg(i, buf) {
        Ok(n) => &buf[..n],
        Err(_) => &[],
    }
}

// The answer to the question that the arguments are.
fn asked(rt: &HostRuntime) -> Result<Answer, Wrong> {
    let count = arg_count(rt);
    if count < 2 {
        return Err(Wrong::NoQuestion);
    }
    let mut text = [0u8; 32];
    let Name { function, width } = Name::try_from(arg(rt, 1, &mut text))?;
    if count - 2 != function.operands() {
        return Err(Wrong::OperandCount);
    }
    let mut first = [0u8; 32];
    let a = arg(rt, 2, &mut first);
    let mut second = [0u8; 32];
    let b = arg(rt, 3, &mut second);
    match width {
        Width::Single => answered::<f32>(function, a, b),
        Width::Double => answered::<f64>(function, a, b),
    }
}

fn main(rt: HostRuntime) -> io::Result<()> {
    match asked(&rt) {
        Ok(answer) => println!(rt; "{answer}"),
        Err(wrong) => print!(rt; "ask: {wrong}\n{USAGE}"),
    }
}
