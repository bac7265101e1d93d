// The root of every other word.
ghost use Rattle.std.specs.Prelude.{◌≡◌, ◌*◌, ◌≤◌, ◌<◌};
ghost use Rattle.words.specs.Format.{infinity, top};
ghost use Rattle.root.specs.Root.{root_word};

use words::format::Format;

// The root of a word x that is no positive finite number: the zeros and infinity are their own roots, and
// above infinity stand the NaNs and all that is negative.
pub fn special_root(f: Format, x: u64) -> u64
    requires { (x < 2 * top f) × (0 < x → infinity f ≤ x) }
    ensures { result ≡ root_word f x }
{
    if x == 0 || x == f.infinity() || x == f.top() {
        x
    } else {
        f.quiet()
    }
}
