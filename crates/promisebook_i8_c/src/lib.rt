// The exports of promisebook_i8, as a static library: each has the clauses of the face's function, which it calls.
#![tactic(auto)]

ghost use Rattle.std.specs.Prelude.{◌≡◌, pos, Some};
ghost use Rattle.theory_answers.specs.Answer.{Answers};
ghost use Rattle.theory_whole.specs.Order.{numbered};
ghost use Rattle.vstd_integers.specs.Signed.{wrapping_add, wrapping_add_unsigned, wrapping_sub, wrapping_mul, wrapping_shl, wrapping_shr, checked_add};
ghost use Rattle.vstd_integers.specs.Signed.{checked_add_unsigned, checked_sub, checked_sub_unsigned, checked_mul, checked_div, checked_div_euclid};
ghost use Rattle.vstd_integers.specs.Signed.{checked_rem, checked_rem_euclid};
ghost use Rattle.vstd_integers.specs.Compare.{clone, eq, ne, cmp, lt, le, gt, ge};

#[unsafe(no_mangle)]
pub extern "C" fn pb_i8_wrapping_add(x: i8, y: i8) -> i8
    ensures { result ≡ wrapping_add 8 x y }
{
    promisebook_i8::pb_i8_wrapping_add(x, y)
}

#[unsafe(no_mangle)]
pub extern "C" fn pb_i8_wrapping_add_unsigned(x: i8, y: u8) -> i8
    ensures { result ≡ wrapping_add_unsigned 8 x (pos y) }
{
    promisebook_i8::pb_i8_wrapping_add_unsigned(x, y)
}

#[unsafe(no_mangle)]
pub extern "C" fn pb_i8_wrapping_sub(x: i8, y: i8) -> i8
    ensures { result ≡ wrapping_sub 8 x y }
{
    promisebook_i8::pb_i8_wrapping_sub(x, y)
}

#[unsafe(no_mangle)]
pub extern "C" fn pb_i8_wrapping_mul(x: i8, y: i8) -> i8
    ensures { result ≡ wrapping_mul 8 x y }
{
    promisebook_i8::pb_i8_wrapping_mul(x, y)
}

#[unsafe(no_mangle)]
pub extern "C" fn pb_i8_wrapping_shl(x: i8, rhs: u32) -> i8
    ensures { result ≡ wrapping_shl 8 x rhs }
{
    promisebook_i8::pb_i8_wrapping_shl(x, rhs)
}

#[unsafe(no_mangle)]
pub extern "C" fn pb_i8_wrapping_shr(x: i8, rhs: u32) -> i8
    ensures { result ≡ wrapping_shr 8 x rhs }
{
    promisebook_i8::pb_i8_wrapping_shr(x, rhs)
}

#[unsafe(no_mangle)]
pub extern "C" fn pb_i8_checked_add(x: i8, y: i8) -> answers::AnswerI8
    ensures { Answers result.ok result.value (checked_add 8 x y) }
{
    promisebook_i8::pb_i8_checked_add(x, y)
}

#[unsafe(no_mangle)]
pub extern "C" fn pb_i8_checked_add_unsigned(x: i8, y: u8) -> answers::AnswerI8
    ensures { Answers result.ok result.value (checked_add_unsigned 8 x (pos y)) }
{
    promisebook_i8::pb_i8_checked_add_unsigned(x, y)
}

#[unsafe(no_mangle)]
pub extern "C" fn pb_i8_checked_sub(x: i8, y: i8) -> answers::AnswerI8
    ensures { Answers result.ok result.value (checked_sub 8 x y) }
{
    promisebook_i8::pb_i8_checked_sub(x, y)
}

#[unsafe(no_mangle)]
pub extern "C" fn pb_i8_checked_sub_unsigned(x: i8, y: u8) -> answers::AnswerI8
    ensures { Answers result.ok result.value (checked_sub_unsigned 8 x (pos y)) }
{
    promisebook_i8::pb_i8_checked_sub_unsigned(x, y)
}

#[unsafe(no_mangle)]
pub extern "C" fn pb_i8_checked_mul(x: i8, y: i8) -> answers::AnswerI8
    ensures { Answers result.ok result.value (checked_mul 8 x y) }
{
    promisebook_i8::pb_i8_checked_mul(x, y)
}

#[unsafe(no_mangle)]
pub extern "C" fn pb_i8_checked_div(x: i8, y: i8) -> answers::AnswerI8
    ensures { Answers result.ok result.value (checked_div 8 x y) }
{
    promisebook_i8::pb_i8_checked_div(x, y)
}

#[unsafe(no_mangle)]
pub extern "C" fn pb_i8_checked_div_euclid(x: i8, y: i8) -> answers::AnswerI8
    ensures { Answers result.ok result.value (checked_div_euclid 8 x y) }
{
    promisebook_i8::pb_i8_checked_div_euclid(x, y)
}

#[unsafe(no_mangle)]
pub extern "C" fn pb_i8_checked_rem(x: i8, y: i8) -> answers::AnswerI8
    ensures { Answers result.ok result.value (checked_rem 8 x y) }
{
    promisebook_i8::pb_i8_checked_rem(x, y)
}

#[unsafe(no_mangle)]
pub extern "C" fn pb_i8_checked_rem_euclid(x: i8, y: i8) -> answers::AnswerI8
    ensures { Answers result.ok result.value (checked_rem_euclid 8 x y) }
{
    promisebook_i8::pb_i8_checked_rem_euclid(x, y)
}

#[unsafe(no_mangle)]
pub extern "C" fn pb_i8_clone(x: i8) -> i8
    ensures { result ≡ clone x }
{
    promisebook_i8::pb_i8_clone(x)
}

#[unsafe(no_mangle)]
pub extern "C" fn pb_i8_eq(x: i8, y: i8) -> bool
    ensures { result ≡ eq x y }
{
    promisebook_i8::pb_i8_eq(x, y)
}

#[unsafe(no_mangle)]
pub extern "C" fn pb_i8_ne(x: i8, y: i8) -> bool
    ensures { result ≡ ne x y }
{
    promisebook_i8::pb_i8_ne(x, y)
}

#[unsafe(no_mangle)]
pub extern "C" fn pb_i8_lt(x: i8, y: i8) -> bool
    ensures { result ≡ lt x y }
{
    promisebook_i8::pb_i8_lt(x, y)
}

#[unsafe(no_mangle)]
pub extern "C" fn pb_i8_le(x: i8, y: i8) -> bool
    ensures { result ≡ le x y }
{
    promisebook_i8::pb_i8_le(x, y)
}

#[unsafe(no_mangle)]
pub extern "C" fn pb_i8_gt(x: i8, y: i8) -> bool
    ensures { result ≡ gt x y }
{
    promisebook_i8::pb_i8_gt(x, y)
}

#[unsafe(no_mangle)]
pub extern "C" fn pb_i8_ge(x: i8, y: i8) -> bool
    ensures { result ≡ ge x y }
{
    promisebook_i8::pb_i8_ge(x, y)
}

#[unsafe(no_mangle)]
pub extern "C" fn pb_i8_cmp(x: i8, y: i8) -> i8
    ensures { result ≡ numbered (cmp x y) }
{
    promisebook_i8::pb_i8_cmp(x, y)
}

#[unsafe(no_mangle)]
pub extern "C" fn pb_i8_partial_cmp(x: i8, y: i8) -> answers::AnswerI8
    ensures { Answers result.ok result.value (Some (numbered (cmp x y))) }
{
    promisebook_i8::pb_i8_partial_cmp(x, y)
}
