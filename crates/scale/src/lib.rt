// Scaling: x times 2^n for every word x and every i32 n, rounded once, by float multiplications as
// in the Rust: at most two long steps, then a clamped last one. A subnormal f32 is scaled as the whole
// number of its units.
#![tactic(auto)]

pub mod clamp;
pub mod double;
pub mod float;
pub mod scaling;
pub mod single;
pub mod word;
