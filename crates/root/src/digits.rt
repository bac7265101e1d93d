// The root of every word by the digit engine.
ghost use Rattle.std.specs.Prelude.{◌≡◌, ◌*◌, ◌<◌};
ghost use Rattle.words.specs.Format.{top};
ghost use Rattle.root.specs.Root.{root_word};

use super::finite::finite_root;
use super::root::Root;
use super::special::special_root;
use words::format::Format;
use words::word::Word;

// The root of every word x of f.
pub fn root_word(f: Format, x: u64) -> u64
    requires { x < 2 * top f }
    ensures value { result ≡ root_word f x }
    ensures bound { result < 2 * top f }
{
    let infinity = f.infinity();
    if x != 0 && x < infinity {
        finite_root(f, x)
    } else {
        special_root(f, x)
    }
}

// The root of every word of a width.
pub fn root_digits<F: Root>(x: F::Word) -> F::Word
    ensures { result ≡ F.root x }
{
    F::Word::narrow(root_word(F::format(), x.wide()))
}
