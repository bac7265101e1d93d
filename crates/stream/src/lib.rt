// Streams: bytes in, bytes out, the work of the programs over lent slices. Operands and answers are
// little-endian words; each whole record of operands gives one answer, and a cut-off last record
// gives none.
#![tactic(auto)]

pub mod bytes;
pub mod records;
