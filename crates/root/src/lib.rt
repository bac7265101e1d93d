// The root by two engines that give the same digits: rounds of one digit each, and a table; and the root
// after some of its rounds. All but the table engine is written once, over the format.
#![tactic(auto)]

pub mod digits;
pub mod finite;
mod narrow;
pub mod operand;
pub mod partial;
pub mod root;
mod rounds;
pub mod special;
mod table;
