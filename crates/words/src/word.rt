// The words of the two widths: what code that is written once for both asks of a word.
ghost use Rattle.std.specs.Prelude.{◌≡◌, ℕ, ◌+◌, ◌-◌, ◌*◌, ◌/◌, ◌%◌, ◌^◌, ◌<◌, ◌≤◌, Some, bit_and, bit_or, nat_eq, refl};
ghost use Rattle.std.specs.Ordering.{nat_cmp};
ghost use Rattle.std.specs.Int.Count.{count_leading_zeros};

use std::ops::{Add, BitAnd, BitOr, Shl, Shr, Sub};

// A bit pattern of BITS binary digits.
pub trait Word: Copy
    + Add<Output = Self>
    + Sub<Output = Self>
    + BitAnd<Output = Self>
    + BitOr<Output = Self>
    + Shl<u32, Output = Self>
    + Shr<u32, Output = Self>
    + PartialOrd {
    const BITS: u32;

    const ZERO: Self;

    ghost BITS: { ℕ };

    ghost ZERO: { Self };

    // The whole number that the digits are.
    ghost number: { Self → ℕ };

    fn wide(self) -> u64
        ensures value { result ≡ number self }
        ensures bound { result < 2 ^ BITS };

    // The word of a number that has room in one.
    fn narrow(n: u64) -> Self
        requires { n < 2 ^ BITS }
        ensures { number result ≡ n };

    // How many digits stand before the first that is 1.
    fn leading_zeros(self) -> u32
        ensures { result ≡ count_leading_zeros BITS (number self) };

    // The sum, and the difference, without what has no room.
    fn wrapping_add(self, other: Self) -> Self
        ensures { number result ≡ (number self + number other) % 2 ^ BITS };

    fn wrapping_sub(self, other: Self) -> Self
        ensures { (number result + number other) % 2 ^ BITS ≡ number self };

    ghost zero_is: { number ZERO ≡ 0 };

    // The operators are those of whole numbers, where the result has room.
    ghost may_add: { (x y : Self) → number x + number y < 2 ^ BITS → Self.Add.can_add x y };

    ghost may_sub: { (x y : Self) → number y ≤ number x → Self.Sub.can_sub x y };

    ghost may_and: { (x y : Self) → Self.BitAnd.can_bitand x y };

    ghost may_or: { (x y : Self) → Self.BitOr.can_bitor x y };

    ghost may_shl: { (x : Self) (n : ℕ) → n < BITS → Self.Shl.can_shl x n };

    ghost may_shr: { (x : Self) (n : ℕ) → n < BITS → Self.Shr.can_shr x n };

    ghost adds: { (x y r : Self) → Self.Add.add_gives x y r → number r ≡ number x + number y };

    ghost subs: { (x y r : Self) → Self.Sub.sub_gives x y r → number r ≡ number x - number y };

    ghost ands: { (x y r : Self) → Self.BitAnd.bitand_gives x y r → number r ≡ bit_and (number x) (number y) };

    ghost ors: { (x y r : Self) → Self.BitOr.bitor_gives x y r → number r ≡ bit_or (number x) (number y) };

    ghost shls: { (x : Self) (n : ℕ) (r : Self) → Self.Shl.shl_gives x n r → number r ≡ number x * 2 ^ n % 2 ^ BITS };

    ghost shrs: { (x : Self) (n : ℕ) (r : Self) → Self.Shr.shr_gives x n r → number r ≡ number x / 2 ^ n };

    ghost equals: { (x y : Self) → Self.PartialEq.eq x y ≡ nat_eq (number x) (number y) };

    ghost compares: { (x y : Self) → Self.PartialOrd.partial_cmp x y ≡ Some (nat_cmp (number x) (number y)) };
    // A number is that of one word.
    ghost same: { (v w : Self) → number v ≡ number w → v ≡ w };
}

// The impls hold what differs, and call the type's own methods: there is no step in them that could be shared.
impl Word for u32 {
    const BITS: u32 = 32;

    ghost may_add = { λ _ _ h. h };

    ghost may_sub = { λ _ _ h. h };

    ghost may_and = { λ _ _. tt };

    ghost may_or = { λ _ _. tt };

    ghost may_shl = { λ _ _ h. h };

    ghost may_shr = { λ _ _ h. h };

    ghost adds = { λ _ _ _ h. h };

    ghost subs = { λ _ _ _ h. h };

    ghost ands = { λ _ _ _ h. h };

    ghost ors = { λ _ _ _ h. h };

    ghost shls = { λ _ _ _ h. h };

    ghost shrs = { λ _ _ _ h. h };

    ghost equals = { λ _ _. refl };

    ghost compares = { λ _ _. refl };

    const ZERO: u32 = 0;

    ghost BITS = { 32 };

    ghost ZERO = { 0 };

    ghost number = { λ w. w };

    ghost zero_is = { refl };

    ghost same = { λ _ _ e. e };

    fn wide(self) -> u64 {
        self as u64
    }

    fn leading_zeros(self) -> u32 {
        u32::leading_zeros(self)
    }

    fn wrapping_add(self, other: u32) -> u32 {
        u32::wrapping_add(self, other)
    }

    fn wrapping_sub(self, other: u32) -> u32 {
        u32::wrapping_sub(self, other)
    }

    fn narrow(n: u64) -> u32 {
        n as u32
    }
}

impl Word for u64 {
    const BITS: u32 = 64;

    ghost may_add = { λ _ _ h. h };

    ghost may_sub = { λ _ _ h. h };

    ghost may_and = { λ _ _. tt };

    ghost may_or = { λ _ _. tt };

    ghost may_shl = { λ _ _ h. h };

    ghost may_shr = { λ _ _ h. h };

    ghost adds = { λ _ _ _ h. h };

    ghost subs = { λ _ _ _ h. h };

    ghost ands = { λ _ _ _ h. h };

    ghost ors = { λ _ _ _ h. h };

    ghost shls = { λ _ _ _ h. h };

    ghost shrs = { λ _ _ _ h. h };

    ghost equals = { λ _ _. refl };

    ghost compares = { λ _ _. refl };

    const ZERO: u64 = 0;

    ghost BITS = { 64 };

    ghost ZERO = { 0 };

    ghost number = { λ w. w };

    ghost zero_is = { refl };

    ghost same = { λ _ _ e. e };

    fn wide(self) -> u64 {
        self
    }

    fn leading_zeros(self) -> u32 {
        u64::leading_zeros(self)
    }

    fn wrapping_add(self, other: u64) -> u64 {
        u64::wrapping_add(self, other)
    }

    fn wrapping_sub(self, other: u64) -> u64 {
        u64::wrapping_sub(self, other)
    }

    fn narrow(n: u64) -> u64 {
        n
    }
}
