// Whole numbers and their arithmetic, written without any operation of the library.
ghost use Rattle.std.specs.Prelude.{◌<◌};

// A whole number by its sign and its size. Zero may have either sign.
#[derive(Clone, Copy)]
pub struct Whole {
    pub negative: bool,
    pub size: u64,
}

// Sizes are far below 2^20: saying so keeps sums and products of two of them within 64 bits.
fn small(size: u64) -> u64
    ensures { result < 1048576 }
{
    size % 1048576
}

pub fn natural(size: u64) -> Whole {
    Whole {
        negative: false,
        size,
    }
}

// The number that a byte stands for.
pub fn number(signed: bool, byte: u64) -> Whole {
    let bits = byte % 256;
    if signed && 128 <= bits {
        Whole {
            negative: true,
            size: 256 - bits,
        }
    } else {
        natural(bits)
    }
}

pub fn opposite(a: Whole) -> Whole {
    Whole {
        negative: !a.negative,
        size: a.size,
    }
}

pub fn sum(a: Whole, b: Whole) -> Whole {
    let x = small(a.size);
    let y = small(b.size);
    if a.negative == b.negative {
        Whole {
            negative: a.negative,
            size: x + y,
        }
    } else if x < y {
        Whole {
            negative: b.negative,
            size: y - x,
        }
    } else {
        Whole {
            negative: a.negative,
            size: x - y,
        }
    }
}

pub fn difference(a: Whole, b: Whole) -> Whole {
    sum(a, opposite(b))
}

pub fn product(a: Whole, b: Whole) -> Whole {
    Whole {
        negative: a.negative != b.negative,
        size: small(a.size) * small(b.size),
    }
}

// Towards zero; 0 where b is 0, which no answer shows.
pub fn quotient(a: Whole, b: Whole) -> Whole {
    let y = b.size;
    if y == 0 {
        natural(0)
    } else {
        Whole {
            negative: a.negative != b.negative,
            size: a.size / y,
        }
    }
}

pub fn remainder(a: Whole, b: Whole) -> Whole {
    difference(a, product(b, quotient(a, b)))
}

// The remainder that is never negative: where the other is, it lies one divisor's size below.
pub fn euclidean_remainder(a: Whole, b: Whole) -> Whole {
    let r = remainder(a, b);
    if r.negative && 0 < r.size {
        sum(r, natural(b.size))
    } else {
        r
    }
}

pub fn euclidean_quotient(a: Whole, b: Whole) -> Whole {
    quotient(difference(a, euclidean_remainder(a, b)), b)
}

pub fn next_multiple(a: Whole, b: Whole) -> Whole {
    let up = difference(sum(a, b), natural(1));
    product(quotient(up, b), b)
}

pub fn power(distance: u64) -> Whole {
    match distance % 8 {
        0 => natural(1),
        1 => natural(2),
        2 => natural(4),
        3 => natural(8),
        4 => natural(16),
        5 => natural(32),
        6 => natural(64),
        _ => natural(128),
    }
}
