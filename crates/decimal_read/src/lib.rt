// Numbers without a sign, read from a part of a slice that says them in decimal (theory_decimal): 64 bits, which every other kind goes by. No function asks
// anything of its caller.
#![tactic(auto)]

ghost use Rattle.std.specs.Prelude.{◌≡◌, pos};
ghost use Rattle.std.specs.Option.{option_map};
ghost use Rattle.theory_whole.specs.Kind.{unsigned};
ghost use Rattle.theory_decimal.specs.Read as said;

use integers::Unsigned;

// n with the figure c behind it.
fn pushed(n: u64, c: u8) -> Option<u64>
    ensures { option_map pos result ≡ said.pushed (unsigned 64) n c }
{
    let digit = match c {
        b'0'..=b'9' => (c - b'0') as u64,
        _ => return None,
    };
    if u64::MAX / 10 < n {
        return None;
    }
    let tens = n * 10;
    if u64::MAX - tens < digit {
        return None;
    }
    Some(tens + digit)
}

fn read_u64(s: &[u8], from: usize, to: usize) -> Option<u64>
    ensures { option_map pos result ≡ said.natural_in (unsigned 64) from to s.now }
{
    if s.len() < to || to <= from {
        return None;
    }
    let mut n = 0;
    for c in &s[from..to] {
        n = pushed(n, *c)?;
    }
    Some(n)
}

pub fn read<T: Unsigned>(s: &[u8], from: usize, to: usize) -> Option<T>
    ensures { option_map (λ r. pos (T.whole r)) result ≡ said.natural_in (unsigned T.bits) from to s.now }
{
    let n = read_u64(s, from, to)?;
    T::from_u64(n)
}
