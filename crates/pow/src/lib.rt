// The powers of the two widths: the open chain, float operation by float operation, written once for both; what it asks
// of a width; `pow` over the sorting; and blocks of 64 pairs. The definitions stand in `power/specs`.
#![tactic(auto)]

pub mod block;
mod double;
pub mod exponential;
mod halves;
pub mod lane;
pub mod logarithm;
pub mod pair;
pub mod pow;
pub mod reduction;
mod single;
pub mod steps;
pub mod table;
