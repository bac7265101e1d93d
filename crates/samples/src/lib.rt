// The operands of the vectors: words at the edges of every rule of document 01, its hand-checked
// values among them, and exponents at the edges of scaling.
#![tactic(auto)]

// A word of a width.
pub trait Samples: Copy + Into<u64> + 'static {
    // How many hexadecimal digits it has.
    const DIGITS: usize;

    // The operands.
    const WORDS: &'static [Self];
}

impl Samples for u32 {
    const DIGITS: usize = 8;

    const WORDS: &'static [u32] = &SINGLES;
}

impl Samples for u64 {
    const DIGITS: usize = 16;

    const WORDS: &'static [u64] = &DOUBLES;
}

// f32 words.
pub const SINGLES: [u32; 32] = [
    0x00000000, 0x80000000, 0x00000001, 0x80000001, 0x00000003, 0x007fffff, 0x00800000, 0x00800001,
    0x33800000, 0x3e99999a, 0x3f000000, 0x3f7fffff, 0x3f800000, 0x3f800001, 0x3fc00000, 0x40000000,
    0x40400000, 0x41200000, 0x42f60000, 0x4b7fffff, 0x4b800000, 0x7f7fffff, 0x7f800000, 0x7f800001,
    0x7fc00000, 0xbf000000, 0xbf800000, 0xc0000000, 0xc0400000, 0xc2c80000, 0xff800000, 0xffc00001,
];

// f64 words.
pub const DOUBLES: [u64; 32] = [
    0x0000000000000000,
    0x8000000000000000,
    0x0000000000000001,
    0x8000000000000001,
    0x0000000000000400,
    0x0000000080000000,
    0x000fffffffffffff,
    0x0010000000000000,
    0x3ca0000000000000,
    0x3fd3333333333333,
    0x3fe0000000000000,
    0x3fefffffffffffff,
    0x3ff0000000000000,
    0x3ff0000000000001,
    0x3ff8000000000000,
    0x4000000000000000,
    0x4008000000000000,
    0x4024000000000000,
    0x405ec00000000000,
    0x433fffffffffffff,
    0x4340000000000000,
    0x7fefffffffffffff,
    0x7ff0000000000000,
    0x7ff0000000000001,
    0x7ff8000000000000,
    0xbfe0000000000000,
    0xbff0000000000000,
    0xc000000000000000,
    0xc008000000000000,
    0xc059000000000000,
    0xfff0000000000000,
    0xfff8000000000001,
];

// Numbers n of scalings by 2^n.
pub const EXPONENTS: [i32; 16] = [
    0,
    1,
    -1,
    -24,
    127,
    -126,
    -149,
    -150,
    276,
    277,
    -277,
    -278,
    -1074,
    -1075,
    2098,
    -2147483648,
];
