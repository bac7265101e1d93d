// An exponent with its bias taken off.
ghost use Rattle.std.specs.Prelude.{◌≡◌, ◌<◌};
ghost use Rattle.std.proofs.Math.IntN.{sub_ℕ};

// e - b, with its sign.
pub fn unbiased(e: u32, b: u32) -> i32
    requires { (e < 8192) × (b < 8192) }
    ensures { result ≡ sub_ℕ e b }
{
    e as i32 - b as i32
}
