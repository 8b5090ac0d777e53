// A scalar value written as its form, at a place of a slice.
#![tactic(auto)]

ghost use Rattle.std.specs.Prelude.{◌≡◌, ◌+◌, ◌≤◌, ◌<◌, length, SomeIff, MatchOption};
ghost use Rattle.theory_lists.specs.Written.{written};
ghost use Rattle.theory_text.specs.Scalar.{Scalar, len, digit, form};

fn put<const N: usize>(out: &mut [u8], at: usize, bytes: [u8; N])
    requires { at + N ≤ length out.old }
    ensures { out.new ≡ written out.old at bytes.entry }
{
    for (k, byte) in bytes.iter().enumerate() {
        out[at + k] = *byte;
    }
}

// The last digit in base 64, behind its mark.
fn digit_of(c: u32) -> u8
    ensures { result ≡ digit c }
{
    (0x80 + c % 64) as u8
}

fn store(out: &mut [u8], at: usize, c: u32)
    requires { (c < 0x110000) × (at + len c ≤ length out.old) }
    ensures { out.new ≡ written out.old at (form c) }
{
    match c {
        0..=0x7f => put(out, at, [c as u8]),
        0x80..=0x7ff => put(out, at, [(0xc0 + c / 64) as u8, digit_of(c)]),
        0x800..=0xffff => put(
            out,
            at,
            [(0xe0 + c / 64 / 64) as u8, digit_of(c / 64), digit_of(c)],
        ),
        _ => put(
            out,
            at,
            [
                (0xf0 + c / 64 / 64 / 64) as u8,
                digit_of(c / 64 / 64),
                digit_of(c / 64),
                digit_of(c),
            ],
        ),
    }
}

// Writes the form of c from a place on, and answers its length. Refused before a byte is written: c is no scalar value, or its form does not fit.
pub fn write(out: &mut [u8], at: usize, c: u32) -> Option<usize>
    ensures answer { SomeIff result (Scalar c × (at + len c ≤ length out.old)) (len c) }
    ensures left { MatchOption result (out.new ≡ out.old) (λ _. out.new ≡ written out.old at (form c)) }
{
    let n = text_scalar::scalar_len(c)?;
    if out.len() < n || out.len() - n < at {
        return None;
    }
    store(out, at, c);
    Some(n)
}
