// A format that 64 bits hold, and the words by which its kinds of words are told apart.
ghost use Rattle.std.specs.Prelude.{◌≡◌, ◌*◌, ◌^◌, ◌<◌, ◌≤◌};
ghost use Rattle.words.specs.Format.{binary16, binary32, binary64, hid, infinity, is_nan_word, magnitude, one, quiet, top};

use std::marker::Model;

// How many binary digits a significand has, the leading one counted, and the largest exponent.
#[derive(Clone, Copy)]
pub struct Format {
    digits: u32,
    emax: u32,
}

impl Model for Format {
    ghost use Rattle.words.specs.Format as Words;
    ghost use Rattle.words.specs.Rounding.{Held};

    ghost Value = { Words.Format };

    ghost view = { λ f. record { digits = f.digits; emax = f.emax } };

    ghost inverse = { λ f. record { digits = f.digits; emax = f.emax } };

    ghost invariant = { λ f. Held f.digits f.emax };
}

impl Format {
    ghost use Rattle.words.specs.Format.{format};
    ghost use Rattle.words.specs.Rounding.{Held};

    // The format of any two numbers that 64 bits hold.
    pub fn new(digits: u32, emax: u32) -> Self
        requires { Held digits emax }
        ensures { result ≡ format digits emax }
    {
        Format { digits, emax }
    }

    // The formats by name: two numbers each.
    pub fn binary16() -> Self
        ensures { result ≡ binary16 }
    {
        Format {
            digits: 11,
            emax: 15,
        }
    }

    pub fn binary32() -> Self
        ensures { result ≡ binary32 }
    {
        Format {
            digits: 24,
            emax: 127,
        }
    }

    pub fn binary64() -> Self
        ensures { result ≡ binary64 }
    {
        Format {
            digits: 53,
            emax: 1023,
        }
    }

    pub fn digits(self) -> u32
        ensures value { result ≡ self.digits }
        ensures held { Held self.digits self.emax }
    {
        self.digits
    }

    pub fn emax(self) -> u32
        ensures { result ≡ self.emax }
    {
        self.emax
    }

    // The exponent's field t in its place, above the digits below the leading one.
    pub fn field(self, t: u64) -> u64
        requires { t ≤ 2 ^ 11 }
        ensures { result ≡ t * hid self }
    {
        t << (self.digits - 1)
    }

    // The weight of the exponent's field.
    pub fn hid(self) -> u64
        ensures value { result ≡ hid self }
        ensures bound { result ≤ 2 ^ 52 }
    {
        1 << (self.digits - 1)
    }

    // Infinity's word.
    pub fn infinity(self) -> u64
        ensures value { result ≡ infinity self }
        ensures bound { result < 2 ^ 63 }
        ensures held { Held self.digits self.emax }
    {
        self.field(2 * (self.emax as u64) + 1)
    }

    // The word of 1.
    pub fn one(self) -> u64
        ensures { result ≡ one self }
    {
        self.field(self.emax as u64)
    }

    // The weight of the sign.
    pub fn top(self) -> u64
        ensures value { result ≡ top self }
        ensures bound { result ≤ 2 ^ 63 }
    {
        self.field(2 * (self.emax as u64) + 2)
    }

    // The one NaN that is returned.
    pub fn quiet(self) -> u64
        ensures { result ≡ quiet self }
    {
        self.infinity() + (self.hid() >> 1)
    }

    // A word without its sign.
    pub fn magnitude(self, x: u64) -> u64
        requires { x < 2 * top self }
        ensures { result ≡ magnitude self x }
    {
        let top = self.top();
        if x < top { x } else { x - top }
    }

    // Whether a word is a NaN's.
    pub fn is_nan(self, x: u64) -> bool
        requires { x < 2 * top self }
        ensures { result ≡ is_nan_word self x }
    {
        self.infinity() < self.magnitude(x)
    }
}
