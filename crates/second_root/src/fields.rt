// Words taken apart and put together. A positive finite operand is m * 2^(e - 1075), where m gets
// 53 digits and e is the field of an f64; e is held 100 too high, which has room for subnormals.
ghost use Rattle.std.specs.Prelude.{◌<◌, ◌≤◌};

use super::bisect::floor_root;

// The leading one of 53 digits.
const LEADING: u64 = 0x10000000000000;

// The first 54 digits of the root, and its field in an f64.
#[derive(Clone, Copy)]
struct Root {
    digits: u64,
    field: u64,
}

// The root of m * 2^(e - 1175), for m of at most 53 digits. Half of the exponent is the root's, so
// an even field gives one to m.
fn root_of(m: u64, e: u64) -> Root
    ensures { (result.digits < 18014398509481984) × (result.field ≤ 4096) }
{
    let mut m = m;
    let mut e = e;
    for _ in 0..52u32 {
        if m < LEADING {
            m = 2 * m;
            e = e.wrapping_sub(1);
        }
    }
    let field = (e % 4096 + 923) / 2;
    if e % 2 == 0 {
        let digits = floor_root(2 * (m % (2 * LEADING)));
        return Root { digits, field };
    }
    let digits = floor_root(m);
    Root { digits, field }
}

// A width: the digits of a significand, the leading one counted, and the largest exponent.
#[derive(Clone, Copy)]
pub struct Width {
    digits: u32,
    emax: u64,
    ghost digits_room: { (1 ≤ digits) × (digits ≤ 53) },
    ghost emax_room: { emax ≤ 1023 },
}

impl Width {
    pub const SINGLE: Width = Width {
        digits: 24,
        emax: 127,
    };

    pub const DOUBLE: Width = Width {
        digits: 53,
        emax: 1023,
    };

    // The leading one of a significand.
    fn hidden(self) -> u64
        ensures { 0 < result }
    {
        1 << (self.digits - 1)
    }

    // The field of infinity, all ones.
    fn ones(self) -> u64
        ensures { result ≤ 2047 }
    {
        2 * self.emax + 1
    }

    // The exponent's field t in its place.
    fn placed(self, t: u64) -> u64 {
        t << (self.digits - 1)
    }

    // The root of a word.
    pub fn root(self, x: u64) -> u64 {
        let hidden = self.hidden();
        let infinity = self.placed(self.ones());
        let top = self.placed(self.ones() + 1);
        if x == 0 || x == top || x == infinity {
            return x;
        }
        if x > infinity {
            return infinity | hidden / 2;
        }
        // 53 digits, and an f64's field, 100 too high.
        let finer = 53 - self.digits;
        let higher = 1023 - self.emax + 100;
        if x < hidden {
            return self.word(root_of(x << finer, 1 + higher));
        }
        self.word(root_of(
            (x % hidden | hidden) << finer,
            (x / hidden & self.ones()) + higher,
        ))
    }

    // The word of a root. Of one digit more than the width's an odd number is raised by 1, then halved; the
    // hidden digit brings one to the field.
    fn word(self, r: Root) -> u64
        requires { r.digits < 18014398509481984 }
    {
        let q = r.digits >> (53 - self.digits);
        let m = (q + q % 2) / 2;
        let t = r.field.wrapping_sub(1023 - self.emax + 1) & self.ones();
        self.placed(t + m / self.hidden()) | m % self.hidden()
    }
}
