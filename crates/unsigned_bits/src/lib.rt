// Unsigned integers: shifts, which multiply and divide by powers of two (theory_whole). No function asks anything of its caller.
#![tactic(auto)]

ghost use Rattle.std.specs.Prelude.{◌≡◌, ◌%◌, ◌^◌, pos, ◌*ℤ◌};
ghost use Rattle.theory_whole.specs.Kind.{unsigned};
ghost use Rattle.theory_whole.specs.Division.{ediv};
ghost use Rattle.theory_whole.specs.Fit.{wrap};

use integers::Unsigned;

pub fn wrapping_shl<T: Unsigned>(a: T, distance: u32) -> T
    ensures { pos (T.whole result) ≡ wrap (unsigned T.bits) (pos (T.whole a) *ℤ pos (2 ^ (distance % T.bits))) }
{
    a << (distance % T::BITS)
}

pub fn wrapping_shr<T: Unsigned>(a: T, distance: u32) -> T
    ensures { pos (T.whole result) ≡ wrap (unsigned T.bits) (ediv (pos (T.whole a)) (pos (2 ^ (distance % T.bits)))) }
{
    a.known();
    a >> (distance % T::BITS)
}
