// Unsigned integers: sums, differences and products, then wrap, refuse or clamp (theory_whole). No function asks anything of its caller.
#![tactic(auto)]

ghost use Rattle.std.specs.Prelude.{◌≡◌, ℤ, pos, ◌+ℤ◌, ◌-ℤ◌, ◌*ℤ◌};
ghost use Rattle.std.specs.Option.{option_map};
ghost use Rattle.theory_whole.specs.Kind.{unsigned};
ghost use Rattle.theory_whole.specs.Fit.{wrap, clamp, refuse};

use integers::Unsigned;

// ---- wrapping

pub fn wrapping_add<T: Unsigned>(a: T, b: T) -> T
    ensures { pos (T.whole result) ≡ wrap (unsigned T.bits) (pos (T.whole a) +ℤ pos (T.whole b)) }
{
    b.known();
    let room = a.room();
    if b <= room { a + b } else { b - room - T::ONE }
}

pub fn wrapping_sub<T: Unsigned>(a: T, b: T) -> T
    ensures { pos (T.whole result) ≡ wrap (unsigned T.bits) (pos (T.whole a) -ℤ pos (T.whole b)) }
{
    a.known();
    if b <= a { a - b } else { a + b.room() + T::ONE }
}

pub fn wrapping_mul<T: Unsigned>(a: T, b: T) -> T
    ensures { pos (T.whole result) ≡ wrap (unsigned T.bits) (pos (T.whole a) *ℤ pos (T.whole b)) }
{
    a.times(b)
}

// ---- checked

pub fn checked_add<T: Unsigned>(a: T, b: T) -> Option<T>
    ensures { option_map (λ r. pos (T.whole r)) result ≡ refuse (unsigned T.bits) (pos (T.whole a) +ℤ pos (T.whole b)) }
{
    if a.room() < b { None } else { Some(a + b) }
}

pub fn checked_sub<T: Unsigned>(a: T, b: T) -> Option<T>
    ensures { option_map (λ r. pos (T.whole r)) result ≡ refuse (unsigned T.bits) (pos (T.whole a) -ℤ pos (T.whole b)) }
{
    a.known();
    if a < b { None } else { Some(a - b) }
}

// Told by dividing again, which becomes the overflow flag.
pub fn checked_mul<T: Unsigned>(a: T, b: T) -> Option<T>
    ensures { option_map (λ r. pos (T.whole r)) result ≡ refuse (unsigned T.bits) (pos (T.whole a) *ℤ pos (T.whole b)) }
{
    if a == T::ZERO {
        return Some(T::ZERO);
    }
    let product = wrapping_mul(a, b);
    if product / a == b {
        Some(product)
    } else {
        None
    }
}

// ---- saturating

pub fn saturating_add<T: Unsigned>(a: T, b: T) -> T
    ensures { pos (T.whole result) ≡ clamp (unsigned T.bits) (pos (T.whole a) +ℤ pos (T.whole b)) }
{
    if a.room() < b { T::MAX } else { a + b }
}

pub fn saturating_sub<T: Unsigned>(a: T, b: T) -> T
    ensures { pos (T.whole result) ≡ clamp (unsigned T.bits) (pos (T.whole a) -ℤ pos (T.whole b)) }
{
    a.known();
    if a < b { T::ZERO } else { a - b }
}

pub fn saturating_mul<T: Unsigned>(a: T, b: T) -> T
    ensures { pos (T.whole result) ≡ clamp (unsigned T.bits) (pos (T.whole a) *ℤ pos (T.whole b)) }
{
    checked_mul(a, b).unwrap_or(T::MAX)
}
