// Signed integers: sign, magnitude and order (theory_whole). No function asks anything of its caller.
#![tactic(auto)]

ghost use Rattle.std.specs.Prelude.{◌≡◌, cond, pos, neg_ℤ, nat_abs};
ghost use Rattle.std.specs.Option.{option_map};
ghost use Rattle.theory_whole.specs.Kind.{signed};
ghost use Rattle.theory_whole.specs.Fit.{refuse};
ghost use Rattle.theory_whole.specs.Order.{order};

use integers::{Signed, Unsigned};
use std::cmp::Ordering;
use unsigned_sums::wrapping_sub;

pub fn magnitude<T: Signed>(a: T) -> T::Unsigned
    ensures { T.Unsigned.whole result ≡ nat_abs (T.whole a) }
{
    a.known();
    if a < T::ZERO {
        wrapping_sub(T::Unsigned::ZERO, a.bits())
    } else {
        a.bits()
    }
}

pub fn with_sign<T: Signed>(negative: bool, magnitude: T::Unsigned) -> Option<T>
    ensures { option_map T.whole result
        ≡ refuse (signed T.Unsigned.bits) (cond negative (neg_ℤ (pos (T.Unsigned.whole magnitude))) (pos (T.Unsigned.whole magnitude))) }
{
    magnitude.known();
    if negative {
        let number = T::of_bits(wrapping_sub(T::Unsigned::ZERO, magnitude));
        if number <= T::ZERO {
            Some(number)
        } else {
            None
        }
    } else {
        let number = T::of_bits(magnitude);
        if T::ZERO <= number {
            Some(number)
        } else {
            None
        }
    }
}

pub fn compare<T: Signed>(a: T, b: T) -> Ordering
    ensures { result ≡ order (T.whole a) (T.whole b) }
{
    if a < b {
        Ordering::Less
    } else if b < a {
        Ordering::Greater
    } else {
        Ordering::Equal
    }
}
