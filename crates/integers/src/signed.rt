// A signed integer: a whole number from -2 ^ (bits - 1) on, below 2 ^ (bits - 1), by the bits of the unsigned type of its width.

ghost use Rattle.std.specs.Prelude.{◌≡◌, true, false, ◌<◌, ◌^◌, ℕ, ℤ, pos, negsuc, ◌+ℤ◌, ◌-ℤ◌, ◌*ℤ◌};
ghost use Rattle.std.specs.Int.Signed.{lt_z, le_z, quot_z, rem_z};
ghost use Rattle.std.specs.Ordering.{partial_lt, partial_le};
ghost use Rattle.theory_whole.specs.Kind.{unsigned, signed, least};
ghost use Rattle.theory_whole.specs.Division.{ediv};
ghost use Rattle.theory_whole.specs.Fit.{fits, wrap};
ghost use Rattle.theory_whole.specs.Order.{eq_z};

use crate::unsigned::Unsigned;
use std::ops::{Add, Div, Mul, Rem, Shl, Shr, Sub};

pub trait Signed: Copy
    + PartialOrd
    + Add<Self, Output = Self>
    + Sub<Self, Output = Self>
    + Mul<Self, Output = Self>
    + Div<Self, Output = Self>
    + Rem<Self, Output = Self>
    + Shl<u32, Output = Self>
    + Shr<u32, Output = Self> {
    // The unsigned integers of this width.
    type Unsigned: Unsigned;

    // The whole number that it is.
    ghost whole: { Self → ℤ };

    const ZERO: Self;

    ghost ZERO: { Self };

    const ONE: Self;

    ghost ONE: { Self };

    const MINUS_ONE: Self;

    ghost MINUS_ONE: { Self };

    const MIN: Self;

    ghost MIN: { Self };

    // It fits its digits: no code, only what a proof may know.
    fn known(self)
        ensures { fits (signed Self.Unsigned.bits) (whole self) ≡ true };

    // The unsigned number with the same bits.
    fn bits(self) -> Self::Unsigned
        ensures { pos (Self.Unsigned.whole result) ≡ wrap (unsigned Self.Unsigned.bits) (whole self) };

    // The signed number with these bits.
    fn of_bits(bits: Self::Unsigned) -> Self
        ensures { whole result ≡ wrap (signed Self.Unsigned.bits) (pos (Self.Unsigned.whole bits)) };

    // ---- the constants

    ghost zero_law: { whole ZERO ≡ pos 0 };

    ghost one_law: { whole ONE ≡ pos 1 };

    ghost minus_one_law: { whole MINUS_ONE ≡ negsuc 0 };

    ghost min_law: { whole MIN ≡ least (signed Self.Unsigned.bits) };

    // ---- comparisons

    ghost eq_law: { (a b : Self) → Self.eq a b ≡ eq_z (whole a) (whole b) };

    ghost lt_law: { (a b : Self) → partial_lt Self.partial_cmp a b ≡ lt_z (whole a) (whole b) };

    ghost le_law: { (a b : Self) → partial_le Self.partial_cmp a b ≡ le_z (whole a) (whole b) };

    // ---- arithmetic

    ghost can_add_law: { (a b : Self) → fits (signed Self.Unsigned.bits) (whole a +ℤ whole b) ≡ true → Self.can_add a b };

    ghost add_law: { (a b r : Self) → Self.add_gives a b r → whole r ≡ whole a +ℤ whole b };

    ghost can_sub_law: { (a b : Self) → fits (signed Self.Unsigned.bits) (whole a -ℤ whole b) ≡ true → Self.can_sub a b };

    ghost sub_law: { (a b r : Self) → Self.sub_gives a b r → whole r ≡ whole a -ℤ whole b };

    ghost can_mul_law: { (a b : Self) → fits (signed Self.Unsigned.bits) (whole a *ℤ whole b) ≡ true → Self.can_mul a b };

    ghost mul_law: { (a b r : Self) → Self.mul_gives a b r → whole r ≡ whole a *ℤ whole b };

    // A division, by a number of the kind that is not 0: the least number by -1 has no quotient.
    ghost can_div_law: { (a b : Self) → fits (signed Self.Unsigned.bits) (whole b) ≡ true → eq_z (whole b) (pos 0) ≡ false
        → fits (signed Self.Unsigned.bits) (quot_z (whole a) (whole b)) ≡ true → Self.can_div a b };

    ghost div_law: { (a b r : Self) → Self.div_gives a b r → whole r ≡ quot_z (whole a) (whole b) };

    ghost can_rem_law: { (a b : Self) → fits (signed Self.Unsigned.bits) (whole b) ≡ true → eq_z (whole b) (pos 0) ≡ false
        → fits (signed Self.Unsigned.bits) (quot_z (whole a) (whole b)) ≡ true → Self.can_rem a b };

    ghost rem_law: { (a b r : Self) → Self.rem_gives a b r → whole r ≡ rem_z (whole a) (whole b) };

    // ---- shifts of a number of the kind, by fewer places than there are digits

    ghost can_shl_law: { (a : Self) (k : ℕ) → k < Self.Unsigned.bits → Self.can_shl a k };

    ghost shl_law: { (a : Self) (k : ℕ) (r : Self) → fits (signed Self.Unsigned.bits) (whole a) ≡ true → Self.shl_gives a k r
        → whole r ≡ wrap (signed Self.Unsigned.bits) (whole a *ℤ pos (2 ^ k)) };

    ghost can_shr_law: { (a : Self) (k : ℕ) → k < Self.Unsigned.bits → Self.can_shr a k };

    ghost shr_law: { (a : Self) (k : ℕ) (r : Self) → Self.shr_gives a k r → whole r ≡ ediv (whole a) (pos (2 ^ k)) };
}
