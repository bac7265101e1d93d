// The port's answers to the operands of `samples`, held to the original's: the file stdout is what
// oracle/vectors.rs prints. The roots come first, as `second_root` prints them too.
#![tactic(auto)]

#[cfg(test)]
mod lanes;
mod lines;
mod partials;

use lines::{powers, roots, scalings};
use partials::of_two;
use std::io;

fn main(rt: HostRuntime) -> io::Result<()> {
    println!(rt; "sqrtf")?;
    roots::<f32>(&rt)?;
    println!(rt; "sqrtd")?;
    roots::<f64>(&rt)?;
    println!(rt; "scalbnf")?;
    scalings::<f32>(&rt)?;
    println!(rt; "scalbnd")?;
    scalings::<f64>(&rt)?;
    println!(rt; "powf")?;
    powers::<f32>(&rt)?;
    println!(rt; "powd")?;
    powers::<f64>(&rt)?;
    println!(rt; "partial_sqrtf")?;
    of_two(&rt)
}
