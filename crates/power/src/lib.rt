// The power's ground: the sorting of the operands, and what the open chains of the two widths
// share. The definitions of the sorting, of the chain and of the power stand in `specs/`.
#![tactic(auto)]

pub mod answer;
pub mod edge;
pub mod kind;
pub mod operand;
pub mod plain;
pub mod sort;
pub mod unbiased;
