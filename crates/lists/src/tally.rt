// What is found in a list: the counts, and the first line that disagrees.

// How many bytes of a line are kept: one more than the longest well-formed line has, 16 + 1 + 16 + 1 + 2. Where
// all of them count the line is too long, and what follows does not matter.
pub const KEPT: usize = 37;

// The bytes of a line, of which the first `held` count: C's struct, so an array with its length beside.
#[repr(C)]
#[derive(Clone, Copy)]
pub struct Line {
    pub bytes: [u8; KEPT],
    pub held: usize,
}

// How many lines were read, agree and are malformed, and the first that disagrees with its number
// from 1; number 0 if there is none. Counts stop at 2^64 - 1.
#[repr(C)]
#[derive(Clone, Copy)]
pub struct Tally {
    pub lines: u64,
    pub agree: u64,
    pub malformed: u64,
    pub number: u64,
    pub first: Line,
}
