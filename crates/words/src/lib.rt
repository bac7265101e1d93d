// The ground: what code that is written once for f32 and f64 asks of the two widths and of their words; a
// format as a value; what an answer is, and the refusals. The formats and the one rounding are definitions
// of `specs/`.
#![tactic(auto)]

pub mod answer;
pub mod format;
pub mod refusal;
pub mod width;
pub mod word;
