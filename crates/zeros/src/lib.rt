// Zeros and ones at the ends of a number: the run at that end of its binary digits (theory_digits), counted bit by bit.
#![tactic(auto)]

ghost use Rattle.std.specs.Prelude.{◌≡◌};
ghost use Rattle.theory_digits.specs.Runs.{leading, trailing};

use integers::Unsigned;

pub fn leading_zeros<T: Unsigned>(x: T) -> u32
    ensures { result ≡ leading 0 T.bits (T.whole x) }
{
    x.known();
    let mut leading = T::BITS;
    let mut upper = x;
    while upper != T::ZERO {
        leading -= 1;
        upper = upper >> 1;
    }
    leading
}

pub fn leading_ones<T: Unsigned>(x: T) -> u32
    ensures { result ≡ leading 1 T.bits (T.whole x) }
{
    leading_zeros(x.room())
}

pub fn trailing_zeros<T: Unsigned>(x: T) -> u32
    ensures { result ≡ trailing 0 T.bits (T.whole x) }
{
    x.known();
    let mut trailing = T::BITS;
    let mut lower = x;
    while lower != T::ZERO {
        trailing -= 1;
        lower = lower << 1;
    }
    trailing
}

pub fn trailing_ones<T: Unsigned>(x: T) -> u32
    ensures { result ≡ trailing 1 T.bits (T.whole x) }
{
    trailing_zeros(x.room())
}
