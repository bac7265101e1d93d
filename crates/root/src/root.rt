// The root at each width.
ghost use Rattle.std.specs.Prelude.{◌≡◌, refl};
ghost use Rattle.words.specs.Format.{binary32, binary64, ours};
ghost use Rattle.root.specs.Root.{root_word};

use super::narrow::narrow_root;
use super::special::special_root;
use super::table::table_root;
use words::format::Format;
use words::width::Width;

pub trait Root: Width {
    // The root of every word.
    ghost root: { Self.Word → Self.Word };

    fn root(x: Self::Word) -> Self::Word
        ensures { result ≡ root x };

    ghost root_is: { (x : Self.Word) → Self.Word.number (root x) ≡ root_word (ours Self.format) (Self.Word.number x) };
}

// Each width has a body of its own, since the table gives an f64 root, and an f32 root is one rounded once more.
impl Root for f32 {
    ghost root = { root_word binary32 };

    ghost root_is = { λ _. refl };

    fn root(x: u32) -> u32 {
        let f = Format::binary32();
        if x != 0 && x < 0x7f80_0000 {
            narrow_root(f, x as u64) as u32
        } else {
            special_root(f, x as u64) as u32
        }
    }
}

impl Root for f64 {
    ghost root = { root_word binary64 };

    ghost root_is = { λ _. refl };

    fn root(x: u64) -> u64 {
        if x != 0 && x < 0x7ff0_0000_0000_0000 {
            table_root(x)
        } else {
            special_root(Format::binary64(), x)
        }
    }
}
