// The places of the constants in the table of a width. How each word is known is told in `power/specs/Table32.antt` and
// `power/specs/Table64.antt`.

// Pairs, at k = 0 and k = 1.
pub const BP: usize = 0;

pub const DP_H: usize = 2;

pub const DP_L: usize = 4;

pub const TWO24: usize = 6;

pub const HUGE: usize = 7;

pub const TINY: usize = 8;

pub const L1: usize = 9;

pub const L2: usize = 10;

pub const L3: usize = 11;

pub const L4: usize = 12;

pub const L5: usize = 13;

pub const L6: usize = 14;

pub const P1: usize = 15;

pub const P2: usize = 16;

pub const P3: usize = 17;

pub const P4: usize = 18;

pub const P5: usize = 19;

pub const LG2: usize = 20;

pub const LG2_H: usize = 21;

pub const LG2_L: usize = 22;

pub const OVT: usize = 23;

pub const CP: usize = 24;

pub const CP_H: usize = 25;

pub const CP_L: usize = 26;

pub const IVLN2: usize = 27;

pub const IVLN2_H: usize = 28;

pub const IVLN2_L: usize = 29;

pub const THIRD: usize = 30;
