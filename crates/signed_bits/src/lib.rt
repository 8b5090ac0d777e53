// Signed integers: shifts, which multiply and divide by powers of two (theory_whole). No function asks anything of its caller.
#![tactic(auto)]

ghost use Rattle.std.specs.Prelude.{◌≡◌, ◌%◌, ◌^◌, pos, ◌*ℤ◌};
ghost use Rattle.theory_whole.specs.Kind.{signed};
ghost use Rattle.theory_whole.specs.Division.{ediv};
ghost use Rattle.theory_whole.specs.Fit.{wrap};

use integers::{Signed, Unsigned};

pub fn wrapping_shl<T: Signed>(a: T, distance: u32) -> T
    ensures { T.whole result ≡ wrap (signed T.Unsigned.bits) (T.whole a *ℤ pos (2 ^ (distance % T.Unsigned.bits))) }
{
    a.known();
    a << (distance % T::Unsigned::BITS)
}

pub fn wrapping_shr<T: Signed>(a: T, distance: u32) -> T
    ensures { T.whole result ≡ wrap (signed T.Unsigned.bits) (ediv (T.whole a) (pos (2 ^ (distance % T.Unsigned.bits)))) }
{
    a.known();
    a >> (distance % T::Unsigned::BITS)
}
