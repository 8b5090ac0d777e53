// How a checked sum knows that it fits. No one form is the fastest at every width: up to 32 bits it becomes the overflow flag, and at 64 there is nothing wider.

ghost use Rattle.std.specs.Prelude.{◌≡◌, ◌+ℤ◌};
ghost use Rattle.std.specs.Option.{option_map};
ghost use Rattle.theory_whole.specs.Kind.{signed};
ghost use Rattle.theory_whole.specs.Fit.{refuse};

use crate::wrapping_add;
use integers::Signed;

pub trait Summable: Signed {
    // The sum, where it fits.
    fn sum(self, other: Self) -> Option<Self>
        ensures { option_map Self.whole result ≡ refuse (signed Self.Unsigned.bits) (Self.whole self +ℤ Self.whole other) };
}

// Made in 64 bits and tested once: together that becomes the overflow flag, which LLVM sees only where both stand in one function.
impl Summable for i8 {
    fn sum(self, other: i8) -> Option<i8> {
        let sum = (self as i64) + (other as i64);
        if 256 <= (sum + 128).bits() {
            None
        } else {
            Some(sum as i8)
        }
    }
}

impl Summable for i16 {
    fn sum(self, other: i16) -> Option<i16> {
        let sum = (self as i64) + (other as i64);
        if 65536 <= (sum + 32768).bits() {
            None
        } else {
            Some(sum as i16)
        }
    }
}

impl Summable for i32 {
    fn sum(self, other: i32) -> Option<i32> {
        let sum = (self as i64) + (other as i64);
        if 4294967296 <= (sum + 2147483648).bits() {
            None
        } else {
            Some(sum as i32)
        }
    }
}

impl Summable for i64 {
    fn sum(self, other: i64) -> Option<i64> {
        sum_by_signs(self, other)
    }
}

impl Summable for isize {
    fn sum(self, other: isize) -> Option<isize> {
        sum_by_signs(self, other)
    }
}

// A sum does not fit where neither number has the sign of what it wraps to.
fn sum_by_signs<T: Signed>(a: T, b: T) -> Option<T>
    ensures { option_map T.whole result ≡ refuse (signed T.Unsigned.bits) (T.whole a +ℤ T.whole b) }
{
    a.known();
    b.known();
    let sum = wrapping_add(a, b);
    let negative = sum < T::ZERO;
    if ((a < T::ZERO) != negative) & ((b < T::ZERO) != negative) {
        None
    } else {
        Some(sum)
    }
}
