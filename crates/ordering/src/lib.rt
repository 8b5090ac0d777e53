// What can be read off the answer of a comparison: the six tests, and its number.
#![tactic(auto)]

ghost use Rattle.std.specs.Prelude.{◌≡◌, not};
ghost use Rattle.theory_whole.specs.Order.{is_less, is_equal, is_greater, numbered};

use std::cmp::Ordering;

pub fn is_eq(o: Ordering) -> bool
    ensures { result ≡ is_equal o }
{
    o == Ordering::Equal
}

pub fn is_ne(o: Ordering) -> bool
    ensures { result ≡ not (is_equal o) }
{
    o != Ordering::Equal
}

pub fn is_lt(o: Ordering) -> bool
    ensures { result ≡ is_less o }
{
    o == Ordering::Less
}

pub fn is_le(o: Ordering) -> bool
    ensures { result ≡ not (is_greater o) }
{
    o != Ordering::Greater
}

pub fn is_gt(o: Ordering) -> bool
    ensures { result ≡ is_greater o }
{
    o == Ordering::Greater
}

pub fn is_ge(o: Ordering) -> bool
    ensures { result ≡ not (is_less o) }
{
    o != Ordering::Less
}

// -1, 0 or 1, as Rust numbers the three.
pub fn number(o: Ordering) -> i8
    ensures { result ≡ numbered o }
{
    o as i8
}
