// Roots of a format with less than half of f64's digits, by the f64 root.
ghost use Rattle.std.specs.Prelude.{◌≡◌, ◌<◌};
ghost use Rattle.words.specs.Format.{units, infinity};
ghost use Rattle.root.specs.Root.{lifted, root_at};
ghost use Rattle.root.specs.Engine.{Narrow};

use super::table::table_root;
use words::format::Format;

// The root of a positive finite word x of f. With its fields moved to f64's places x is a word of the
// same digits, normal or subnormal as before, whose value is x's times an even power of two. Its root is rounded
// once more and moved back.
pub fn narrow_root(f: Format, x: u64) -> u64
    requires { Narrow f.digits f.emax × (0 < x) × (x < infinity f) }
    ensures { result ≡ root_at f (lifted f (units f x)) }
{
    let p = f.digits();
    let half: u64 = 1 << (52 - p);
    let bias = ((1023 - f.emax()) >> 1) as u64;
    ((table_root(x << (53 - p)) + half) >> (53 - p)) - (bias << (p - 1))
}
