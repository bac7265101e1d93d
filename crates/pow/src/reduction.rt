// ax = 2^n * z with z near 1: what the logarithm starts from.

// The word of z, the place k of the constants in pairs, and n with what a width adds to it: its digits and its largest
// exponent.
#[derive(Clone, Copy)]
pub struct Reduced<W> {
    pub ix: W,
    pub k: W,
    pub e: u32,
}
