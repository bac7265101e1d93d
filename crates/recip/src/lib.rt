// One over a root, from a table of curves.
#![tactic(auto)]

ghost use Rattle.std.specs.Prelude.{◌≡◌, ◌+◌, ◌-◌, ◌*◌, ◌/◌, ◌%◌, ◌^◌, ◌≤◌, ◌<◌};
ghost use Rattle.recip.specs.Reciprocal.{Reciprocal};

use curves::curve_at;

mod curves;

// 2^46 over the root of y, or of 2 * y when j is below 256, from below; j is the place of the first nine
// digits of y in the table.
pub fn reciprocal(y: u64, j: u64) -> u64
    requires { (2 ^ 30 ≤ y) × (y < 2 ^ 31) × (j < 512) × (j % 256 ≡ y / 2 ^ 22 % 256) }
    ensures { Reciprocal (2 ^ (1 - j / 256) * y) (2 ^ (1 - j / 256) * (y + 1)) result }
{
    let d = y & 0x3f_ffff;
    let e = curve_at(j);
    (e + (((e & 0x7ff) * (d * d)) >> 9) - d * (e & 0xffff_ffff)) >> 32
}
