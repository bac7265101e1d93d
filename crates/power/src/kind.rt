// Whole numbers and odd ones.
ghost use Rattle.std.specs.Prelude.{◌≡◌, ◌<◌};
ghost use Rattle.power.specs.Numbers.{whole, odd, is_whole, is_odd};

use words::format::Format;

#[derive(Clone, Copy, Debug, PartialEq, Eq)]
pub enum Kind {
    Fraction,
    Even,
    Odd,
}

// What kind of number the size iy is, finite and not 0: by its d digits below the point, which are
// shifted out. From 2^digits on every size is even, and below 1 none is whole.
pub fn kind_of(f: Format, iy: u64) -> Kind
    requires { 0 < iy }
    ensures whole { is_whole result ≡ whole f iy }
    ensures odd { is_odd result ≡ odd f iy }
{
    let digits = f.digits();
    let emax = f.emax() as u64;
    let field = iy >> (digits - 1);
    if field >= emax + digits as u64 {
        return Kind::Even;
    }
    if field < emax {
        return Kind::Fraction;
    }
    let hid = f.hid();
    let s = (iy & (hid - 1)) | hid;
    let d = emax + digits as u64 - 1 - field;
    let j = s >> d;
    if j << d != s {
        return Kind::Fraction;
    }
    if j & 1 == 1 { Kind::Odd } else { Kind::Even }
}
