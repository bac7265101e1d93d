// Berkeley TestFloat's lists of roots: lines of an operand, a result and flags, read from pieces of
// any size and held to what the library answers.
#![tactic(auto)]

mod buffer;
mod digits;
mod ended;
mod judge;
mod line;
pub mod reader;
pub mod tally;
