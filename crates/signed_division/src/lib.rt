// Signed integers: quotients and remainders (theory_whole). No function asks anything of its caller.
#![tactic(auto)]

ghost use Rattle.std.specs.Prelude.{◌≡◌, pos};
ghost use Rattle.std.specs.Option.{option_map};
ghost use Rattle.std.specs.Int.Signed.{quot_z, rem_z};
ghost use Rattle.theory_whole.specs.Kind.{signed};
ghost use Rattle.theory_whole.specs.Division.{ediv, emod};
ghost use Rattle.theory_whole.specs.Fit.{divided};

use integers::Signed;
use signed_sums::divides;

pub fn checked_div<T: Signed>(a: T, b: T) -> Option<T>
    ensures { option_map T.whole result
        ≡ divided (signed T.Unsigned.bits) (T.whole b) (quot_z (T.whole a) (T.whole b)) (quot_z (T.whole a) (T.whole b)) }
{
    b.known();
    if divides(a, b) { Some(a / b) } else { None }
}

pub fn checked_rem<T: Signed>(a: T, b: T) -> Option<T>
    ensures { option_map T.whole result
        ≡ divided (signed T.Unsigned.bits) (T.whole b) (quot_z (T.whole a) (T.whole b)) (rem_z (T.whole a) (T.whole b)) }
{
    b.known();
    if divides(a, b) { Some(a % b) } else { None }
}

pub fn checked_div_euclid<T: Signed>(a: T, b: T) -> Option<T>
    ensures { option_map T.whole result
        ≡ divided (signed T.Unsigned.bits) (T.whole b) (ediv (T.whole a) (T.whole b)) (ediv (T.whole a) (T.whole b)) }
{
    a.known();
    b.known();
    if !divides(a, b) {
        return None;
    }
    let quotient = a / b;
    if T::ZERO <= a % b {
        Some(quotient)
    } else if b < T::ZERO {
        Some(quotient + T::ONE)
    } else {
        Some(quotient - T::ONE)
    }
}

pub fn checked_rem_euclid<T: Signed>(a: T, b: T) -> Option<T>
    ensures { option_map T.whole result
        ≡ divided (signed T.Unsigned.bits) (T.whole b) (ediv (T.whole a) (T.whole b)) (emod (T.whole a) (T.whole b)) }
{
    a.known();
    b.known();
    if !divides(a, b) {
        return None;
    }
    let remainder = a % b;
    if T::ZERO <= remainder {
        Some(remainder)
    } else if b < T::ZERO {
        Some(remainder - b)
    } else {
        Some(remainder + b)
    }
}
