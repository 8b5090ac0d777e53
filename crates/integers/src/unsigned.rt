// An unsigned integer: a natural number below 2 ^ bits.

ghost use Rattle.std.specs.Prelude.{◌≡◌, ◌+◌, ◌-◌, ◌*◌, ◌/◌, ◌%◌, ◌^◌, ◌<◌, ◌≤◌, ℕ, pos};
ghost use Rattle.std.specs.Option.{option_map};
ghost use Rattle.std.specs.Ordering.{partial_lt, partial_le};
ghost use Rattle.theory_answers.specs.Says.{Says};
ghost use Rattle.theory_whole.specs.Fit.{refuse};
ghost use Rattle.theory_whole.specs.Kind.{unsigned};

use std::ops::{Add, Div, Mul, Rem, Shl, Shr, Sub};

pub trait Unsigned: Copy
    + PartialOrd
    + Add<Self, Output = Self>
    + Sub<Self, Output = Self>
    + Mul<Self, Output = Self>
    + Div<Self, Output = Self>
    + Rem<Self, Output = Self>
    + Shl<u32, Output = Self>
    + Shr<u32, Output = Self> {
    // How many binary digits a number has.
    ghost bits: { ℕ };

    // The natural number that it is.
    ghost whole: { Self → ℕ };

    const BITS: u32;

    ghost BITS: { ℕ };

    const ZERO: Self;

    ghost ZERO: { Self };

    const ONE: Self;

    ghost ONE: { Self };

    const MAX: Self;

    ghost MAX: { Self };

    // It is no larger than its digits can say: no code, only what a proof may know.
    fn known(self)
        ensures { whole self < 2 ^ bits };

    // How much may be added to it.
    fn room(self) -> Self
        ensures { whole self + whole result + 1 ≡ 2 ^ bits };

    // The digits of the product that there is room for.
    fn times(self, other: Self) -> Self
        ensures { whole result ≡ (whole self * whole other) % 2 ^ bits };

    // The same number in 64 bits, which are enough for each of these types, and back: the digits that there is room for, or refused where one is lost.
    fn to_u64(self) -> u64
        ensures { result ≡ whole self };

    fn truncated(n: u64) -> Self
        ensures { whole result ≡ n % 2 ^ bits };

    fn from_u64(n: u64) -> Option<Self>
        ensures { option_map (λ r. pos (whole r)) result ≡ refuse (unsigned bits) (pos n) };

    // ---- the constants

    ghost bits_law: { BITS ≡ bits };

    ghost some_bits_law: { 0 < bits };

    ghost zero_law: { whole ZERO ≡ 0 };

    ghost one_law: { whole ONE ≡ 1 };

    ghost max_law: { whole MAX + 1 ≡ 2 ^ bits };

    // ---- comparisons

    ghost eq_law: { (a b : Self) → Says (Self.eq a b) (whole a ≡ whole b) };

    ghost lt_law: { (a b : Self) → Says (partial_lt Self.partial_cmp a b) (whole a < whole b) };

    ghost le_law: { (a b : Self) → Says (partial_le Self.partial_cmp a b) (whole a ≤ whole b) };

    // ---- arithmetic

    ghost can_add_law: { (a b : Self) → whole a + whole b < 2 ^ bits → Self.can_add a b };

    ghost add_law: { (a b r : Self) → Self.add_gives a b r → whole r ≡ whole a + whole b };

    ghost can_sub_law: { (a b : Self) → whole b ≤ whole a → Self.can_sub a b };

    ghost sub_law: { (a b r : Self) → Self.sub_gives a b r → whole r ≡ whole a - whole b };

    ghost can_mul_law: { (a b : Self) → whole a * whole b < 2 ^ bits → Self.can_mul a b };

    ghost mul_law: { (a b r : Self) → Self.mul_gives a b r → whole r ≡ whole a * whole b };

    ghost can_div_law: { (a b : Self) → 0 < whole b → Self.can_div a b };

    ghost div_law: { (a b r : Self) → Self.div_gives a b r → whole r ≡ whole a / whole b };

    ghost can_rem_law: { (a b : Self) → 0 < whole b → Self.can_rem a b };

    ghost rem_law: { (a b r : Self) → Self.rem_gives a b r → whole r ≡ whole a % whole b };

    // ---- shifts, by fewer places than there are digits

    ghost can_shl_law: { (a : Self) (k : ℕ) → k < bits → Self.can_shl a k };

    ghost shl_law: { (a : Self) (k : ℕ) (r : Self) → Self.shl_gives a k r → whole r ≡ (whole a * 2 ^ k) % 2 ^ bits };

    ghost can_shr_law: { (a : Self) (k : ℕ) → k < bits → Self.can_shr a k };

    ghost shr_law: { (a : Self) (k : ℕ) (r : Self) → Self.shr_gives a k r → whole r ≡ whole a / 2 ^ k };

    // ---- whole bytes, eight of them at most

    ghost bytes_law: { bits % 8 ≡ 0 };

    ghost most_bits_law: { bits ≤ 64 };
}
