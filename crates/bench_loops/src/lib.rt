// The loops that bench/ times: each runs one operation over a slice, as a user's own loop would. They promise nothing.
#![tactic(auto)]

// ---- i32

#[unsafe(no_mangle)]
pub extern "C" fn loop_i32_checked_add(xs: &[i32]) -> i32 {
    let mut sum: i32 = 0;
    for x in xs {
        match signed_sums::checked_add(sum, *x) {
            Some(next) => sum = next,
            None => return 0,
        }
    }
    sum
}

#[unsafe(no_mangle)]
pub extern "C" fn loop_i32_checked_mul(xs: &[i32]) -> i32 {
    let mut product: i32 = 1;
    for x in xs {
        match signed_sums::checked_mul(product, *x) {
            Some(next) => product = next,
            None => return 0,
        }
    }
    product
}

#[unsafe(no_mangle)]
pub extern "C" fn loop_i32_wrapping_add(xs: &[i32]) -> i32 {
    let mut sum: i32 = 0;
    for x in xs {
        sum = signed_sums::wrapping_add(sum, *x);
    }
    sum
}

#[unsafe(no_mangle)]
pub extern "C" fn loop_i32_wrapping_mul(xs: &[i32]) -> i32 {
    let mut product: i32 = 1;
    for x in xs {
        product = signed_sums::wrapping_mul(product, *x);
    }
    product
}

// ---- i64

#[unsafe(no_mangle)]
pub extern "C" fn loop_i64_checked_add(xs: &[i64]) -> i64 {
    let mut sum: i64 = 0;
    for x in xs {
        match signed_sums::checked_add(sum, *x) {
            Some(next) => sum = next,
            None => return 0,
        }
    }
    sum
}

#[unsafe(no_mangle)]
pub extern "C" fn loop_i64_checked_mul(xs: &[i64]) -> i64 {
    let mut product: i64 = 1;
    for x in xs {
        match signed_sums::checked_mul(product, *x) {
            Some(next) => product = next,
            None => return 0,
        }
    }
    product
}

#[unsafe(no_mangle)]
pub extern "C" fn loop_i64_wrapping_add(xs: &[i64]) -> i64 {
    let mut sum: i64 = 0;
    for x in xs {
        sum = signed_sums::wrapping_add(sum, *x);
    }
    sum
}

#[unsafe(no_mangle)]
pub extern "C" fn loop_i64_wrapping_mul(xs: &[i64]) -> i64 {
    let mut product: i64 = 1;
    for x in xs {
        product = signed_sums::wrapping_mul(product, *x);
    }
    product
}

// ---- u32

#[unsafe(no_mangle)]
pub extern "C" fn loop_u32_checked_add(xs: &[u32]) -> u32 {
    let mut sum: u32 = 0;
    for x in xs {
        match unsigned_sums::checked_add(sum, *x) {
            Some(next) => sum = next,
            None => return 0,
        }
    }
    sum
}

#[unsafe(no_mangle)]
pub extern "C" fn loop_u32_checked_mul(xs: &[u32]) -> u32 {
    let mut product: u32 = 1;
    for x in xs {
        match unsigned_sums::checked_mul(product, *x) {
            Some(next) => product = next,
            None => return 0,
        }
    }
    product
}

#[unsafe(no_mangle)]
pub extern "C" fn loop_u32_wrapping_add(xs: &[u32]) -> u32 {
    let mut sum: u32 = 0;
    for x in xs {
        sum = unsigned_sums::wrapping_add(sum, *x);
    }
    sum
}

#[unsafe(no_mangle)]
pub extern "C" fn loop_u32_wrapping_mul(xs: &[u32]) -> u32 {
    let mut product: u32 = 1;
    for x in xs {
        product = unsigned_sums::wrapping_mul(product, *x);
    }
    product
}

#[unsafe(no_mangle)]
pub extern "C" fn loop_u32_saturating_add(xs: &[u32]) -> u32 {
    let mut sum: u32 = 0;
    for x in xs {
        sum = unsigned_sums::saturating_add(sum, *x);
    }
    sum
}

#[unsafe(no_mangle)]
pub extern "C" fn loop_u32_saturating_mul(xs: &[u32]) -> u32 {
    let mut product: u32 = 1;
    for x in xs {
        product = unsigned_sums::saturating_mul(product, *x);
    }
    product
}

// ---- u64

#[unsafe(no_mangle)]
pub extern "C" fn loop_u64_checked_add(xs: &[u64]) -> u64 {
    let mut sum: u64 = 0;
    for x in xs {
        match unsigned_sums::checked_add(sum, *x) {
            Some(next) => sum = next,
            None => return 0,
        }
    }
    sum
}

#[unsafe(no_mangle)]
pub extern "C" fn loop_u64_checked_mul(xs: &[u64]) -> u64 {
    let mut product: u64 = 1;
    for x in xs {
        match unsigned_sums::checked_mul(product, *x) {
            Some(next) => product = next,
            None => return 0,
        }
    }
    product
}

#[unsafe(no_mangle)]
pub extern "C" fn loop_u64_wrapping_add(xs: &[u64]) -> u64 {
    let mut sum: u64 = 0;
    for x in xs {
        sum = unsigned_sums::wrapping_add(sum, *x);
    }
    sum
}

#[unsafe(no_mangle)]
pub extern "C" fn loop_u64_wrapping_mul(xs: &[u64]) -> u64 {
    let mut product: u64 = 1;
    for x in xs {
        product = unsigned_sums::wrapping_mul(product, *x);
    }
    product
}

#[unsafe(no_mangle)]
pub extern "C" fn loop_u64_saturating_add(xs: &[u64]) -> u64 {
    let mut sum: u64 = 0;
    for x in xs {
        sum = unsigned_sums::saturating_add(sum, *x);
    }
    sum
}

#[unsafe(no_mangle)]
pub extern "C" fn loop_u64_saturating_mul(xs: &[u64]) -> u64 {
    let mut product: u64 = 1;
    for x in xs {
        product = unsigned_sums::saturating_mul(product, *x);
    }
    product
}

// ---- zeros of a u64, and how many there are in all

#[unsafe(no_mangle)]
pub extern "C" fn loop_u64_leading_zeros(xs: &[u64]) -> u32 {
    let mut sum: u32 = 0;
    for x in xs {
        sum = unsigned_sums::wrapping_add(sum, zeros::leading_zeros(*x));
    }
    sum
}

#[unsafe(no_mangle)]
pub extern "C" fn loop_u64_trailing_zeros(xs: &[u64]) -> u32 {
    let mut sum: u32 = 0;
    for x in xs {
        sum = unsigned_sums::wrapping_add(sum, zeros::trailing_zeros(*x));
    }
    sum
}

// ---- bytes of a u64: the sum of the numbers that stand in a slice one behind the other

#[unsafe(no_mangle)]
pub extern "C" fn loop_u64_from_le_bytes(s: &[u8]) -> u64 {
    let mut sum: u64 = 0;
    for k in 0..s.len() / 8 {
        let number = number_bytes::from_le_bytes(&s[8 * k..8 * k + 8]);
        sum = unsigned_sums::wrapping_add(sum, number.unwrap_or(0));
    }
    sum
}

#[unsafe(no_mangle)]
pub extern "C" fn loop_u64_from_be_bytes(s: &[u8]) -> u64 {
    let mut sum: u64 = 0;
    for k in 0..s.len() / 8 {
        let number = number_bytes::from_be_bytes(&s[8 * k..8 * k + 8]);
        sum = unsigned_sums::wrapping_add(sum, number.unwrap_or(0));
    }
    sum
}

// and a slice filled with the multiples of a number

#[unsafe(no_mangle)]
pub extern "C" fn loop_u64_to_le_bytes(step: u64, s: &mut [u8]) -> u64 {
    let mut x: u64 = 0;
    for k in 0..s.len() / 8 {
        number_bytes::write_le_bytes(s, 8 * k, x);
        x = unsigned_sums::wrapping_add(x, step);
    }
    x
}

#[unsafe(no_mangle)]
pub extern "C" fn loop_u64_to_be_bytes(step: u64, s: &mut [u8]) -> u64 {
    let mut x: u64 = 0;
    for k in 0..s.len() / 8 {
        number_bytes::write_be_bytes(s, 8 * k, x);
        x = unsigned_sums::wrapping_add(x, step);
    }
    x
}
