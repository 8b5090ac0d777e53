// The exports of promisebook_u32, as a static library: each has the clauses of the face's function, which it calls.
#![tactic(auto)]

ghost use Rattle.std.specs.Prelude.{◌≡◌, pos, Some};
ghost use Rattle.theory_answers.specs.Answer.{Answers};
ghost use Rattle.theory_whole.specs.Order.{numbered};
ghost use Rattle.vstd_integers.specs.Unsigned.{wrapping_add, wrapping_add_signed, wrapping_sub, wrapping_mul, wrapping_shl, wrapping_shr, checked_add};
ghost use Rattle.vstd_integers.specs.Unsigned.{checked_add_signed, checked_sub, checked_mul, checked_next_multiple_of, checked_div, checked_rem};
ghost use Rattle.vstd_integers.specs.Unsigned.{saturating_add, saturating_sub, saturating_mul, is_multiple_of};
ghost use Rattle.vstd_integers.specs.Compare.{clone, eq, ne, cmp, lt, le, gt, ge};

#[unsafe(no_mangle)]
pub extern "C" fn pb_u32_wrapping_add(x: u32, y: u32) -> u32
    ensures { pos result ≡ wrapping_add 32 (pos x) (pos y) }
{
    promisebook_u32::pb_u32_wrapping_add(x, y)
}

#[unsafe(no_mangle)]
pub extern "C" fn pb_u32_wrapping_add_signed(x: u32, y: i32) -> u32
    ensures { pos result ≡ wrapping_add_signed 32 (pos x) y }
{
    promisebook_u32::pb_u32_wrapping_add_signed(x, y)
}

#[unsafe(no_mangle)]
pub extern "C" fn pb_u32_wrapping_sub(x: u32, y: u32) -> u32
    ensures { pos result ≡ wrapping_sub 32 (pos x) (pos y) }
{
    promisebook_u32::pb_u32_wrapping_sub(x, y)
}

#[unsafe(no_mangle)]
pub extern "C" fn pb_u32_wrapping_mul(x: u32, y: u32) -> u32
    ensures { pos result ≡ wrapping_mul 32 (pos x) (pos y) }
{
    promisebook_u32::pb_u32_wrapping_mul(x, y)
}

#[unsafe(no_mangle)]
pub extern "C" fn pb_u32_wrapping_shl(x: u32, rhs: u32) -> u32
    ensures { pos result ≡ wrapping_shl 32 (pos x) rhs }
{
    promisebook_u32::pb_u32_wrapping_shl(x, rhs)
}

#[unsafe(no_mangle)]
pub extern "C" fn pb_u32_wrapping_shr(x: u32, rhs: u32) -> u32
    ensures { pos result ≡ wrapping_shr 32 (pos x) rhs }
{
    promisebook_u32::pb_u32_wrapping_shr(x, rhs)
}

#[unsafe(no_mangle)]
pub extern "C" fn pb_u32_checked_add(x: u32, y: u32) -> answers::AnswerU32
    ensures { Answers result.ok (pos result.value) (checked_add 32 (pos x) (pos y)) }
{
    promisebook_u32::pb_u32_checked_add(x, y)
}

#[unsafe(no_mangle)]
pub extern "C" fn pb_u32_checked_add_signed(x: u32, y: i32) -> answers::AnswerU32
    ensures { Answers result.ok (pos result.value) (checked_add_signed 32 (pos x) y) }
{
    promisebook_u32::pb_u32_checked_add_signed(x, y)
}

#[unsafe(no_mangle)]
pub extern "C" fn pb_u32_checked_sub(x: u32, y: u32) -> answers::AnswerU32
    ensures { Answers result.ok (pos result.value) (checked_sub 32 (pos x) (pos y)) }
{
    promisebook_u32::pb_u32_checked_sub(x, y)
}

#[unsafe(no_mangle)]
pub extern "C" fn pb_u32_checked_mul(x: u32, y: u32) -> answers::AnswerU32
    ensures { Answers result.ok (pos result.value) (checked_mul 32 (pos x) (pos y)) }
{
    promisebook_u32::pb_u32_checked_mul(x, y)
}

#[unsafe(no_mangle)]
pub extern "C" fn pb_u32_checked_next_multiple_of(x: u32, y: u32) -> answers::AnswerU32
    ensures { Answers result.ok (pos result.value) (checked_next_multiple_of 32 (pos x) (pos y)) }
{
    promisebook_u32::pb_u32_checked_next_multiple_of(x, y)
}

#[unsafe(no_mangle)]
pub extern "C" fn pb_u32_checked_div(x: u32, y: u32) -> answers::AnswerU32
    ensures { Answers result.ok (pos result.value) (checked_div 32 (pos x) (pos y)) }
{
    promisebook_u32::pb_u32_checked_div(x, y)
}

#[unsafe(no_mangle)]
pub extern "C" fn pb_u32_checked_div_euclid(x: u32, y: u32) -> answers::AnswerU32
    ensures { Answers result.ok (pos result.value) (checked_div 32 (pos x) (pos y)) }
{
    promisebook_u32::pb_u32_checked_div_euclid(x, y)
}

#[unsafe(no_mangle)]
pub extern "C" fn pb_u32_checked_rem(x: u32, y: u32) -> answers::AnswerU32
    ensures { Answers result.ok (pos result.value) (checked_rem 32 (pos x) (pos y)) }
{
    promisebook_u32::pb_u32_checked_rem(x, y)
}

#[unsafe(no_mangle)]
pub extern "C" fn pb_u32_checked_rem_euclid(x: u32, y: u32) -> answers::AnswerU32
    ensures { Answers result.ok (pos result.value) (checked_rem 32 (pos x) (pos y)) }
{
    promisebook_u32::pb_u32_checked_rem_euclid(x, y)
}

#[unsafe(no_mangle)]
pub extern "C" fn pb_u32_saturating_add(x: u32, y: u32) -> u32
    ensures { pos result ≡ saturating_add 32 (pos x) (pos y) }
{
    promisebook_u32::pb_u32_saturating_add(x, y)
}

#[unsafe(no_mangle)]
pub extern "C" fn pb_u32_saturating_sub(x: u32, y: u32) -> u32
    ensures { pos result ≡ saturating_sub 32 (pos x) (pos y) }
{
    promisebook_u32::pb_u32_saturating_sub(x, y)
}

#[unsafe(no_mangle)]
pub extern "C" fn pb_u32_saturating_mul(x: u32, y: u32) -> u32
    ensures { pos result ≡ saturating_mul 32 (pos x) (pos y) }
{
    promisebook_u32::pb_u32_saturating_mul(x, y)
}

#[unsafe(no_mangle)]
pub extern "C" fn pb_u32_is_multiple_of(x: u32, y: u32) -> bool
    ensures { result ≡ is_multiple_of (pos x) (pos y) }
{
    promisebook_u32::pb_u32_is_multiple_of(x, y)
}

#[unsafe(no_mangle)]
pub extern "C" fn pb_u32_clone(x: u32) -> u32
    ensures { pos result ≡ clone (pos x) }
{
    promisebook_u32::pb_u32_clone(x)
}

#[unsafe(no_mangle)]
pub extern "C" fn pb_u32_eq(x: u32, y: u32) -> bool
    ensures { result ≡ eq (pos x) (pos y) }
{
    promisebook_u32::pb_u32_eq(x, y)
}

#[unsafe(no_mangle)]
pub extern "C" fn pb_u32_ne(x: u32, y: u32) -> bool
    ensures { result ≡ ne (pos x) (pos y) }
{
    promisebook_u32::pb_u32_ne(x, y)
}

#[unsafe(no_mangle)]
pub extern "C" fn pb_u32_lt(x: u32, y: u32) -> bool
    ensures { result ≡ lt (pos x) (pos y) }
{
    promisebook_u32::pb_u32_lt(x, y)
}

#[unsafe(no_mangle)]
pub extern "C" fn pb_u32_le(x: u32, y: u32) -> bool
    ensures { result ≡ le (pos x) (pos y) }
{
    promisebook_u32::pb_u32_le(x, y)
}

#[unsafe(no_mangle)]
pub extern "C" fn pb_u32_gt(x: u32, y: u32) -> bool
    ensures { result ≡ gt (pos x) (pos y) }
{
    promisebook_u32::pb_u32_gt(x, y)
}

#[unsafe(no_mangle)]
pub extern "C" fn pb_u32_ge(x: u32, y: u32) -> bool
    ensures { result ≡ ge (pos x) (pos y) }
{
    promisebook_u32::pb_u32_ge(x, y)
}

#[unsafe(no_mangle)]
pub extern "C" fn pb_u32_cmp(x: u32, y: u32) -> i8
    ensures { result ≡ numbered (cmp (pos x) (pos y)) }
{
    promisebook_u32::pb_u32_cmp(x, y)
}

#[unsafe(no_mangle)]
pub extern "C" fn pb_u32_partial_cmp(x: u32, y: u32) -> answers::AnswerI8
    ensures { Answers result.ok result.value (Some (numbered (cmp (pos x) (pos y)))) }
{
    promisebook_u32::pb_u32_partial_cmp(x, y)
}
