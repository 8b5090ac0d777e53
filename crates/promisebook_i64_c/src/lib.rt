// The exports of promisebook_i64, as a static library: each has the clauses of the face's function, which it calls.
#![tactic(auto)]

ghost use Rattle.std.specs.Prelude.{◌≡◌, pos, Some};
ghost use Rattle.theory_answers.specs.Answer.{Answers};
ghost use Rattle.theory_whole.specs.Order.{numbered};
ghost use Rattle.vstd_integers.specs.Signed.{wrapping_add, wrapping_add_unsigned, wrapping_sub, wrapping_mul, wrapping_shl, wrapping_shr, checked_add};
ghost use Rattle.vstd_integers.specs.Signed.{checked_add_unsigned, checked_sub, checked_sub_unsigned, checked_mul, checked_div, checked_div_euclid};
ghost use Rattle.vstd_integers.specs.Signed.{checked_rem, checked_rem_euclid};
ghost use Rattle.vstd_integers.specs.Compare.{clone, eq, ne, cmp, lt, le, gt, ge};

#[unsafe(no_mangle)]
pub extern "C" fn pb_i64_wrapping_add(x: i64, y: i64) -> i64
    ensures { result ≡ wrapping_add 64 x y }
{
    promisebook_i64::pb_i64_wrapping_add(x, y)
}

#[unsafe(no_mangle)]
pub extern "C" fn pb_i64_wrapping_add_unsigned(x: i64, y: u64) -> i64
    ensures { result ≡ wrapping_add_unsigned 64 x (pos y) }
{
    promisebook_i64::pb_i64_wrapping_add_unsigned(x, y)
}

#[unsafe(no_mangle)]
pub extern "C" fn pb_i64_wrapping_sub(x: i64, y: i64) -> i64
    ensures { result ≡ wrapping_sub 64 x y }
{
    promisebook_i64::pb_i64_wrapping_sub(x, y)
}

#[unsafe(no_mangle)]
pub extern "C" fn pb_i64_wrapping_mul(x: i64, y: i64) -> i64
    ensures { result ≡ wrapping_mul 64 x y }
{
    promisebook_i64::pb_i64_wrapping_mul(x, y)
}

#[unsafe(no_mangle)]
pub extern "C" fn pb_i64_wrapping_shl(x: i64, rhs: u32) -> i64
    ensures { result ≡ wrapping_shl 64 x rhs }
{
    promisebook_i64::pb_i64_wrapping_shl(x, rhs)
}

#[unsafe(no_mangle)]
pub extern "C" fn pb_i64_wrapping_shr(x: i64, rhs: u32) -> i64
    ensures { result ≡ wrapping_shr 64 x rhs }
{
    promisebook_i64::pb_i64_wrapping_shr(x, rhs)
}

#[unsafe(no_mangle)]
pub extern "C" fn pb_i64_checked_add(x: i64, y: i64) -> answers::AnswerI64
    ensures { Answers result.ok result.value (checked_add 64 x y) }
{
    promisebook_i64::pb_i64_checked_add(x, y)
}

#[unsafe(no_mangle)]
pub extern "C" fn pb_i64_checked_add_unsigned(x: i64, y: u64) -> answers::AnswerI64
    ensures { Answers result.ok result.value (checked_add_unsigned 64 x (pos y)) }
{
    promisebook_i64::pb_i64_checked_add_unsigned(x, y)
}

#[unsafe(no_mangle)]
pub extern "C" fn pb_i64_checked_sub(x: i64, y: i64) -> answers::AnswerI64
    ensures { Answers result.ok result.value (checked_sub 64 x y) }
{
    promisebook_i64::pb_i64_checked_sub(x, y)
}

#[unsafe(no_mangle)]
pub extern "C" fn pb_i64_checked_sub_unsigned(x: i64, y: u64) -> answers::AnswerI64
    ensures { Answers result.ok result.value (checked_sub_unsigned 64 x (pos y)) }
{
    promisebook_i64::pb_i64_checked_sub_unsigned(x, y)
}

#[unsafe(no_mangle)]
pub extern "C" fn pb_i64_checked_mul(x: i64, y: i64) -> answers::AnswerI64
    ensures { Answers result.ok result.value (checked_mul 64 x y) }
{
    promisebook_i64::pb_i64_checked_mul(x, y)
}

#[unsafe(no_mangle)]
pub extern "C" fn pb_i64_checked_div(x: i64, y: i64) -> answers::AnswerI64
    ensures { Answers result.ok result.value (checked_div 64 x y) }
{
    promisebook_i64::pb_i64_checked_div(x, y)
}

#[unsafe(no_mangle)]
pub extern "C" fn pb_i64_checked_div_euclid(x: i64, y: i64) -> answers::AnswerI64
    ensures { Answers result.ok result.value (checked_div_euclid 64 x y) }
{
    promisebook_i64::pb_i64_checked_div_euclid(x, y)
}

#[unsafe(no_mangle)]
pub extern "C" fn pb_i64_checked_rem(x: i64, y: i64) -> answers::AnswerI64
    ensures { Answers result.ok result.value (checked_rem 64 x y) }
{
    promisebook_i64::pb_i64_checked_rem(x, y)
}

#[unsafe(no_mangle)]
pub extern "C" fn pb_i64_checked_rem_euclid(x: i64, y: i64) -> answers::AnswerI64
    ensures { Answers result.ok result.value (checked_rem_euclid 64 x y) }
{
    promisebook_i64::pb_i64_checked_rem_euclid(x, y)
}

#[unsafe(no_mangle)]
pub extern "C" fn pb_i64_clone(x: i64) -> i64
    ensures { result ≡ clone x }
{
    promisebook_i64::pb_i64_clone(x)
}

#[unsafe(no_mangle)]
pub extern "C" fn pb_i64_eq(x: i64, y: i64) -> bool
    ensures { result ≡ eq x y }
{
    promisebook_i64::pb_i64_eq(x, y)
}

#[unsafe(no_mangle)]
pub extern "C" fn pb_i64_ne(x: i64, y: i64) -> bool
    ensures { result ≡ ne x y }
{
    promisebook_i64::pb_i64_ne(x, y)
}

#[unsafe(no_mangle)]
pub extern "C" fn pb_i64_lt(x: i64, y: i64) -> bool
    ensures { result ≡ lt x y }
{
    promisebook_i64::pb_i64_lt(x, y)
}

#[unsafe(no_mangle)]
pub extern "C" fn pb_i64_le(x: i64, y: i64) -> bool
    ensures { result ≡ le x y }
{
    promisebook_i64::pb_i64_le(x, y)
}

#[unsafe(no_mangle)]
pub extern "C" fn pb_i64_gt(x: i64, y: i64) -> bool
    ensures { result ≡ gt x y }
{
    promisebook_i64::pb_i64_gt(x, y)
}

#[unsafe(no_mangle)]
pub extern "C" fn pb_i64_ge(x: i64, y: i64) -> bool
    ensures { result ≡ ge x y }
{
    promisebook_i64::pb_i64_ge(x, y)
}

#[unsafe(no_mangle)]
pub extern "C" fn pb_i64_cmp(x: i64, y: i64) -> i8
    ensures { result ≡ numbered (cmp x y) }
{
    promisebook_i64::pb_i64_cmp(x, y)
}

#[unsafe(no_mangle)]
pub extern "C" fn pb_i64_partial_cmp(x: i64, y: i64) -> answers::AnswerI8
    ensures { Answers result.ok result.value (Some (numbered (cmp x y))) }
{
    promisebook_i64::pb_i64_partial_cmp(x, y)
}
