// Unsigned integers: order (theory_whole). No function asks anything of its caller.
#![tactic(auto)]

ghost use Rattle.std.specs.Prelude.{◌≡◌, pos};
ghost use Rattle.theory_whole.specs.Order.{order};

use integers::Unsigned;
use std::cmp::Ordering;

pub fn compare<T: Unsigned>(a: T, b: T) -> Ordering
    ensures { result ≡ order (pos (T.whole a)) (pos (T.whole b)) }
{
    if a < b {
        Ordering::Less
    } else if b < a {
        Ordering::Greater
    } else {
        Ordering::Equal
    }
}
