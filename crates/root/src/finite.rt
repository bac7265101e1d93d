// The root of a positive finite word by the digit engine.
ghost use Rattle.std.specs.Prelude.{◌≡◌, ℕ, ◌<◌};
ghost use Rattle.std.proofs.Math.IntN.{sub_ℕ};
ghost use Rattle.words.specs.Format.{infinity, units};
ghost use Rattle.root.specs.Root.{lifted, root_at};

use super::operand::Parts;
use super::rounds::digit_rounds;
use words::format::Format;

// The number that is e above -b.
fn biased(e: i32, b: u32) -> u32
    requires { (n : ℕ) × (n < 8192) × (b < 8192) × (e ≡ sub_ℕ n b) }
    ensures { (n : ℕ) → n < 8192 → e ≡ sub_ℕ n b → result ≡ n }
{
    (e + b as i32) as u32
}

// The root of a positive finite word x: all p + 1 rounds, the odd digit raised, and halved.
pub fn finite_root(f: Format, x: u64) -> u64
    requires { (0 < x) × (x < infinity f) }
    ensures { result ≡ root_at f (lifted f (units f x)) }
{
    let p = f.digits();
    let o = Parts::of(f, x);
    let q = digit_rounds(o.w, p, p + 1).digits;
    ((biased(o.half, f.emax() - 1) as u64) << (p - 1)) + ((q + (q & 1)) >> 1)
}
