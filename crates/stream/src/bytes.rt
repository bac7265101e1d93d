// Words as bytes, the least significant first.
ghost use Rattle.std.specs.Prelude.{◌≡◌, ℕ, ◌+◌, ◌≤◌, ◌<◌, ◌++◌, length, take, drop};
ghost use Rattle.std.proofs.Common.{rules};
ghost use Rattle.stream.specs.Bytes.{word_of, bytes_of};

use words::word::Word;

pub trait LittleEndian: Word {
    // How many bytes a word is.
    const SIZE: usize;

    ghost SIZE: { ℕ };

    // The word of the bytes at the start of a slice.
    fn read(bytes: &[u8]) -> Self
        requires { SIZE ≤ length bytes.now }
        ensures { Self.number result ≡ word_of (take SIZE bytes.now) };

    // The word's bytes are put at the start of a slice.
    fn put(self, out: &mut [u8])
        requires { SIZE ≤ length out.old }
        ensures { out.new ≡ bytes_of SIZE (Self.number self) ++ drop SIZE out.old };

    // A word has some bytes, and few.
    ghost some: { 0 < SIZE };

    ghost few: { SIZE ≤ 8 };
}

// Both impls call std's conversions, which are methods of the two types and of no trait.
impl LittleEndian for u32 {
    const SIZE: usize = 4;

    ghost SIZE = { 4 };

    ghost some = { Prim.search rules };

    ghost few = { Prim.search rules };

    fn read(bytes: &[u8]) -> u32 {
        u32::from_le_bytes(*bytes.first_chunk().unwrap())
    }

    fn put(self, out: &mut [u8]) {
        out[..4].copy_from_slice(&self.to_le_bytes());
    }
}

impl LittleEndian for u64 {
    const SIZE: usize = 8;

    ghost SIZE = { 8 };

    ghost some = { Prim.search rules };

    ghost few = { Prim.search rules };

    fn read(bytes: &[u8]) -> u64 {
        u64::from_le_bytes(*bytes.first_chunk().unwrap())
    }

    fn put(self, out: &mut [u8]) {
        out[..8].copy_from_slice(&self.to_le_bytes());
    }
}
