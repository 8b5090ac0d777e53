// Numbers with a sign or none, read from a part of a slice that says them in decimal (theory_decimal): '-', and then a number as decimal_read reads it. No
// function asks anything of its caller.
#![tactic(auto)]

ghost use Rattle.std.specs.Prelude.{◌≡◌};
ghost use Rattle.std.specs.Option.{option_map};
ghost use Rattle.theory_whole.specs.Kind.{signed};
ghost use Rattle.theory_decimal.specs.Read as said;

use integers::Signed;
use signed_order::with_sign;

pub fn read<T: Signed>(s: &[u8], from: usize, to: usize) -> Option<T>
    ensures { option_map T.whole result ≡ said.whole_in (signed T.Unsigned.bits) from to s.now }
{
    if s.len() < to || to <= from {
        return None;
    }
    if s[from] == b'-' {
        with_sign(true, decimal_read::read(s, from + 1, to)?)
    } else {
        with_sign(false, decimal_read::read(s, from, to)?)
    }
}
