// The largest q below 2^54 with q * q at most w * 2^54, by bisection.
ghost use Rattle.std.specs.Prelude.{◌<◌, ◌≤◌};

const HALF: u64 = 0x8000000;

const LIMIT: u64 = 0x40000000000000;

// The product of the low 27 digits of a and b.
fn product(a: u64, b: u64) -> u64
    ensures { result ≤ 18014398509481984 }
{
    (a % HALF) * (b % HALF)
}

// Whether q * q is at most w * 2^54, for q below 2^54. With q = a * 2^27 + b the square is
// high * 2^54 + low.
fn fits(q: u64, w: u64) -> bool {
    let a = q / HALF;
    let b = q % HALF;
    let cross = 2 * product(a, b);
    let low = cross % HALF * HALF + product(b, b);
    let high = product(a, a) + cross / HALF + low / LIMIT;
    high < w || (high == w && low % LIMIT == 0)
}

pub fn floor_root(w: u64) -> u64
    ensures { result < 18014398509481984 }
{
    let mut low = 0;
    let mut high = LIMIT;
    while high - low > 1 {
        let middle = (low + high) / 2;
        if fits(middle, w) {
            low = middle;
        } else {
            high = middle;
        }
    }
    low
}
