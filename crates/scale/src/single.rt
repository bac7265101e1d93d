// Scaling of f32 words: off the common way as whole numbers of units, since a product that meets a subnormal
// number is slow, and of any f32 words some 2 in 100 meet one, of f64 words 3 in 1,000. So this way and the
// one of double.rt stay two.
ghost use Rattle.std.specs.Prelude.{◌≡◌, ◌<◌, refl};
ghost use Rattle.words.specs.Format.{binary32};
ghost use Rattle.scale.specs.Scale as Words;
ghost use Rattle.scale.specs.Scale.{scaled};

use super::scaling::Scale;
use super::{float, word};

impl Scale for f32 {
    ghost scaled = { Words.scaled binary32 };

    ghost scaled_is = { λ _ _. refl };

    fn scale(self, n: i32) -> f32 {
        float::scale(self, n)
    }

    fn near(x: u32, n: i32) -> u32 {
        word::near::<f32>(x, n)
    }

    // One multiplication for a normal x, n and result.
    fn scaled(x: u32, n: i32) -> u32 {
        let ix = x & 0x7fffffff;
        let normal = 0x00800000 <= ix && ix < 0x7f800000;
        if normal && float::is_normal::<f32>(n) && n + ((ix >> 23) as i32) > 0 {
            f32::near(x, n)
        } else {
            rare(x, n)
        }
    }
}

// The word of m times 2^n for a word m of at most 24 digits. Such a word is its own number of units,
// 2^-149, and a whole float; so no multiplication meets a subnormal number, which would be slow: where
// the result has fewer than 2^23 units, they are added to 2^23, which rounds them to a whole number in
// the sum's last digits.
fn tiny(m: u32, n: i32) -> u32
    requires { m < 0x01000000 }
    ensures { result ≡ scaled binary32 m n }
{
    let units = m as f32;
    let k = n.clamp(-126, 277);
    let y = units.scale(k);
    let x1p23 = f32::from_bits(0x4b000000);
    if y < x1p23 {
        f32::to_bits(y + x1p23) - 0x4b000000
    } else {
        f32::to_bits(units.scale(k - 149))
    }
}

// The word of x times 2^n for every x and n. Only a NaN's word gives the NaN. Not inlined, since a compiler
// would take what is called once into every loop over `scaled`.
#[inline(never)]
fn rare(x: u32, n: i32) -> u32
    ensures { result ≡ scaled binary32 x n }
{
    let ix = x & 0x7fffffff;
    let sign = x & 0x80000000;
    if ix > 0x7f800000 {
        0x7fc00000
    } else if let Some(r) = word::limit::<f32>(x, n) {
        r
    } else if ix < 0x00800000 {
        sign | tiny(ix, n)
    } else {
        let m = (ix & 0x007fffff) | 0x00800000;
        sign | tiny(m, n + (((ix >> 23) - 1) as i32))
    }
}
