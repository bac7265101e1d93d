// Batches: roots, scalings and powers of many words at once, over lent slices. Operands are only
// read. A refused batch writes nothing.
#![tactic(auto)]

pub mod digits;
pub mod each;
pub mod outcome;
pub mod powers;
pub mod roots;
pub mod scalings;
pub mod stretch;
