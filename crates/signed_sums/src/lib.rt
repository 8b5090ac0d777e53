// Signed integers: sums, differences and products, then wrap or refuse (theory_whole), and sums of an unsigned integer and a signed one. No function asks
// anything of its caller.
#![tactic(auto)]

mod summable;

ghost use Rattle.std.specs.Prelude.{◌≡◌, not, ◌&&◌, ℤ, pos, ◌+ℤ◌, ◌-ℤ◌, ◌*ℤ◌};
ghost use Rattle.std.specs.Option.{option_map};
ghost use Rattle.std.specs.Int.Signed.{quot_z};
ghost use Rattle.theory_whole.specs.Kind.{unsigned, signed};
ghost use Rattle.theory_whole.specs.Order.{eq_z};
ghost use Rattle.theory_whole.specs.Fit.{fits, wrap, refuse};

use integers::{Signed, Unsigned};
pub use summable::Summable;

// ---- wrapping: the bits are those of the unsigned operation

pub fn wrapping_add<T: Signed>(a: T, b: T) -> T
    ensures { T.whole result ≡ wrap (signed T.Unsigned.bits) (T.whole a +ℤ T.whole b) }
{
    T::of_bits(unsigned_sums::wrapping_add(a.bits(), b.bits()))
}

pub fn wrapping_add_unsigned<T: Signed>(a: T, b: T::Unsigned) -> T
    ensures { T.whole result ≡ wrap (signed T.Unsigned.bits) (T.whole a +ℤ pos (T.Unsigned.whole b)) }
{
    T::of_bits(unsigned_sums::wrapping_add(a.bits(), b))
}

pub fn wrapping_sub<T: Signed>(a: T, b: T) -> T
    ensures { T.whole result ≡ wrap (signed T.Unsigned.bits) (T.whole a -ℤ T.whole b) }
{
    T::of_bits(unsigned_sums::wrapping_sub(a.bits(), b.bits()))
}

pub fn wrapping_sub_unsigned<T: Signed>(a: T, b: T::Unsigned) -> T
    ensures { T.whole result ≡ wrap (signed T.Unsigned.bits) (T.whole a -ℤ pos (T.Unsigned.whole b)) }
{
    T::of_bits(unsigned_sums::wrapping_sub(a.bits(), b))
}

pub fn wrapping_mul<T: Signed>(a: T, b: T) -> T
    ensures { T.whole result ≡ wrap (signed T.Unsigned.bits) (T.whole a *ℤ T.whole b) }
{
    T::of_bits(unsigned_sums::wrapping_mul(a.bits(), b.bits()))
}

// ---- checked sums and differences: told by what they wrap to

pub fn checked_add<T: Summable>(a: T, b: T) -> Option<T>
    ensures { option_map T.whole result ≡ refuse (signed T.Unsigned.bits) (T.whole a +ℤ T.whole b) }
{
    a.sum(b)
}

pub fn checked_add_unsigned<T: Signed>(a: T, b: T::Unsigned) -> Option<T>
    ensures { option_map T.whole result ≡ refuse (signed T.Unsigned.bits) (T.whole a +ℤ pos (T.Unsigned.whole b)) }
{
    a.known();
    b.known();
    let more = wrapping_add_unsigned(a, b);
    if more < a { None } else { Some(more) }
}

pub fn checked_sub<T: Signed>(a: T, b: T) -> Option<T>
    ensures { option_map T.whole result ≡ refuse (signed T.Unsigned.bits) (T.whole a -ℤ T.whole b) }
{
    a.known();
    b.known();
    let difference = wrapping_sub(a, b);
    let negative = a < T::ZERO;
    if (negative != (b < T::ZERO)) & (negative != (difference < T::ZERO)) {
        None
    } else {
        Some(difference)
    }
}

pub fn checked_sub_unsigned<T: Signed>(a: T, b: T::Unsigned) -> Option<T>
    ensures { option_map T.whole result ≡ refuse (signed T.Unsigned.bits) (T.whole a -ℤ pos (T.Unsigned.whole b)) }
{
    a.known();
    b.known();
    let less = wrapping_sub_unsigned(a, b);
    if a < less { None } else { Some(less) }
}

// ---- checked products: told by dividing again, which becomes the overflow flag

pub fn checked_mul<T: Signed>(a: T, b: T) -> Option<T>
    ensures { option_map T.whole result ≡ refuse (signed T.Unsigned.bits) (T.whole a *ℤ T.whole b) }
{
    if a == T::ZERO {
        return Some(T::ZERO);
    }
    a.known();
    b.known();
    let product = wrapping_mul(a, b);
    if divides(product, a) && product / a == b {
        Some(product)
    } else {
        None
    }
}

// Whether a / b has a value: the smallest number by -1 has none.
pub fn divides<T: Signed>(a: T, b: T) -> bool
    ensures { result ≡ not (eq_z (T.whole b) (pos 0)) && fits (signed T.Unsigned.bits) (quot_z (T.whole a) (T.whole b)) }
{
    a.known();
    b.known();
    if b == T::ZERO {
        false
    } else if b == T::MINUS_ONE {
        a != T::MIN
    } else {
        true
    }
}

// ---- an unsigned integer and a signed one

pub fn wrapping_add_signed<T: Signed>(a: T::Unsigned, b: T) -> T::Unsigned
    ensures { pos (T.Unsigned.whole result) ≡ wrap (unsigned T.Unsigned.bits) (pos (T.Unsigned.whole a) +ℤ T.whole b) }
{
    unsigned_sums::wrapping_add(a, b.bits())
}

pub fn checked_add_signed<T: Signed>(a: T::Unsigned, b: T) -> Option<T::Unsigned>
    ensures { option_map (λ r. pos (T.Unsigned.whole r)) result ≡ refuse (unsigned T.Unsigned.bits) (pos (T.Unsigned.whole a) +ℤ T.whole b) }
{
    a.known();
    b.known();
    let sum = wrapping_add_signed(a, b);
    if (b < T::ZERO) != (sum < a) {
        None
    } else {
        Some(sum)
    }
}
