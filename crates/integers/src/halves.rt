// The product of two numbers of 64 bits from their halves: the language has wider numbers, and none is asked of it.

ghost use Rattle.std.specs.Prelude.{◌≡◌, ◌*◌, ◌%◌, ◌^◌, pos, ◌+ℤ◌};
ghost use Rattle.theory_whole.specs.Kind.{unsigned};
ghost use Rattle.theory_whole.specs.Fit.{wrap};

// The digits of a sum that there is room for.
fn sum(a: u64, b: u64) -> u64
    ensures { pos result ≡ wrap (unsigned 64) (pos a +ℤ pos b) }
{
    if b <= u64::MAX - a {
        a + b
    } else {
        b - (u64::MAX - a) - 1
    }
}

// The digits of the product that there is room for.
pub(crate) fn product(a: u64, b: u64) -> u64
    ensures { result ≡ (a * b) % 2 ^ 64 }
{
    let a_low = a % 4294967296;
    let a_high = a / 4294967296;
    let b_low = b % 4294967296;
    let b_high = b / 4294967296;
    let cross = sum(a_low * b_high, b_low * a_high);
    sum(cross << 32, a_low * b_low)
}
