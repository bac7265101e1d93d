// The roots of the words of `samples` once more, by bisection over whole numbers and with nothing
// of the crate `root`: the file stdout holds them to the same lines as `vectors`.
#![tactic(auto)]

mod bisect;
mod fields;

use fields::Width;
use samples::Samples;
use std::io;

// Each word of a width and its root, a line for each.
fn roots<W: Samples>(rt: &impl Print, width: Width) -> io::Result<()> {
    let digits = W::DIGITS;
    for &word in W::WORDS {
        let x = word.into();
        let root = width.root(x);
        println!(rt; "{x:0digits$x} {root:0digits$x}")?;
    }
    Ok(())
}

fn main(rt: HostRuntime) -> io::Result<()> {
    println!(rt; "sqrtf")?;
    roots::<u32>(&rt, Width::SINGLE)?;
    println!(rt; "sqrtd")?;
    roots::<u64>(&rt, Width::DOUBLE)
}
