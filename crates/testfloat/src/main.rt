// Holds a Berkeley TestFloat list of f16_sqrt, f32_sqrt or f64_sqrt, on standard input, to the library's
// roots. Writes how many lines were read, agree and are malformed, the first that disagrees, and a last line
// with the verdict. A failed read or write is told on standard error, and then there is no verdict. Its exit status
// says nothing: the last line alone says that all is well.
#![tactic(auto)]

mod report;

use lists::reader::{State, feed, finish, start};
use report::report;
use std::env::{Env, FillError};
use std::io;

fn usage(rt: &HostRuntime) {
    let _ = eprintln!(rt;
        "testfloat: it takes no arguments; the list comes on standard input, as in"
    );
    let _ = eprintln!(rt; "  testfloat_gen -level 2 f64_sqrt | testfloat");
}

// Whether the program was started with an argument.
fn has_arguments(rt: &HostRuntime) -> bool {
    !matches!(rt.arg(1, &mut []), Err(FillError::NotPresent))
}

// Reads the whole list. A proved loop has to end, and nothing says that the input does: no input has this many pieces.
fn read_list(rt: &HostRuntime) -> io::Result<State> {
    let mut piece = [0u8; 16384];
    let mut state = start();
    for _ in 0..u64::MAX {
        let count = stdio::read(rt, &mut piece, b"testfloat: cannot read")?;
        if count == 0 {
            break;
        }
        state = feed(state, &piece[..count]);
    }
    Ok(state)
}

// A read or write that fails is told where it fails.
fn main(rt: HostRuntime) {
    if has_arguments(&rt) {
        usage(&rt);
        return;
    }
    if let Ok(state) = read_list(&rt) {
        let _ = report(&rt, &finish(state));
    }
}
