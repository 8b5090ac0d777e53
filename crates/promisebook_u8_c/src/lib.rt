// The exports of promisebook_u8, as a static library: each has the clauses of the face's function, which it calls.
#![tactic(auto)]

ghost use Rattle.std.specs.Prelude.{◌≡◌, pos, Some};
ghost use Rattle.theory_answers.specs.Answer.{Answers};
ghost use Rattle.theory_whole.specs.Order.{numbered};
ghost use Rattle.vstd_integers.specs.Unsigned.{wrapping_add, wrapping_add_signed, wrapping_sub, wrapping_mul, wrapping_shl, wrapping_shr, checked_add};
ghost use Rattle.vstd_integers.specs.Unsigned.{checked_add_signed, checked_sub, checked_mul, checked_next_multiple_of, checked_div, checked_rem};
ghost use Rattle.vstd_integers.specs.Unsigned.{saturating_add, saturating_sub, saturating_mul, is_multiple_of};
ghost use Rattle.vstd_integers.specs.Compare.{clone, eq, ne, cmp, lt, le, gt, ge};

#[unsafe(no_mangle)]
pub extern "C" fn pb_u8_wrapping_add(x: u8, y: u8) -> u8
    ensures { pos result ≡ wrapping_add 8 (pos x) (pos y) }
{
    promisebook_u8::pb_u8_wrapping_add(x, y)
}

#[unsafe(no_mangle)]
pub extern "C" fn pb_u8_wrapping_add_signed(x: u8, y: i8) -> u8
    ensures { pos result ≡ wrapping_add_signed 8 (pos x) y }
{
    promisebook_u8::pb_u8_wrapping_add_signed(x, y)
}

#[unsafe(no_mangle)]
pub extern "C" fn pb_u8_wrapping_sub(x: u8, y: u8) -> u8
    ensures { pos result ≡ wrapping_sub 8 (pos x) (pos y) }
{
    promisebook_u8::pb_u8_wrapping_sub(x, y)
}

#[unsafe(no_mangle)]
pub extern "C" fn pb_u8_wrapping_mul(x: u8, y: u8) -> u8
    ensures { pos result ≡ wrapping_mul 8 (pos x) (pos y) }
{
    promisebook_u8::pb_u8_wrapping_mul(x, y)
}

#[unsafe(no_mangle)]
pub extern "C" fn pb_u8_wrapping_shl(x: u8, rhs: u32) -> u8
    ensures { pos result ≡ wrapping_shl 8 (pos x) rhs }
{
    promisebook_u8::pb_u8_wrapping_shl(x, rhs)
}

#[unsafe(no_mangle)]
pub extern "C" fn pb_u8_wrapping_shr(x: u8, rhs: u32) -> u8
    ensures { pos result ≡ wrapping_shr 8 (pos x) rhs }
{
    promisebook_u8::pb_u8_wrapping_shr(x, rhs)
}

#[unsafe(no_mangle)]
pub extern "C" fn pb_u8_checked_add(x: u8, y: u8) -> answers::AnswerU8
    ensures { Answers result.ok (pos result.value) (checked_add 8 (pos x) (pos y)) }
{
    promisebook_u8::pb_u8_checked_add(x, y)
}

#[unsafe(no_mangle)]
pub extern "C" fn pb_u8_checked_add_signed(x: u8, y: i8) -> answers::AnswerU8
    ensures { Answers result.ok (pos result.value) (checked_add_signed 8 (pos x) y) }
{
    promisebook_u8::pb_u8_checked_add_signed(x, y)
}

#[unsafe(no_mangle)]
pub extern "C" fn pb_u8_checked_sub(x: u8, y: u8) -> answers::AnswerU8
    ensures { Answers result.ok (pos result.value) (checked_sub 8 (pos x) (pos y)) }
{
    promisebook_u8::pb_u8_checked_sub(x, y)
}

#[unsafe(no_mangle)]
pub extern "C" fn pb_u8_checked_mul(x: u8, y: u8) -> answers::AnswerU8
    ensures { Answers result.ok (pos result.value) (checked_mul 8 (pos x) (pos y)) }
{
    promisebook_u8::pb_u8_checked_mul(x, y)
}

#[unsafe(no_mangle)]
pub extern "C" fn pb_u8_checked_next_multiple_of(x: u8, y: u8) -> answers::AnswerU8
    ensures { Answers result.ok (pos result.value) (checked_next_multiple_of 8 (pos x) (pos y)) }
{
    promisebook_u8::pb_u8_checked_next_multiple_of(x, y)
}

#[unsafe(no_mangle)]
pub extern "C" fn pb_u8_checked_div(x: u8, y: u8) -> answers::AnswerU8
    ensures { Answers result.ok (pos result.value) (checked_div 8 (pos x) (pos y)) }
{
    promisebook_u8::pb_u8_checked_div(x, y)
}

#[unsafe(no_mangle)]
pub extern "C" fn pb_u8_checked_div_euclid(x: u8, y: u8) -> answers::AnswerU8
    ensures { Answers result.ok (pos result.value) (checked_div 8 (pos x) (pos y)) }
{
    promisebook_u8::pb_u8_checked_div_euclid(x, y)
}

#[unsafe(no_mangle)]
pub extern "C" fn pb_u8_checked_rem(x: u8, y: u8) -> answers::AnswerU8
    ensures { Answers result.ok (pos result.value) (checked_rem 8 (pos x) (pos y)) }
{
    promisebook_u8::pb_u8_checked_rem(x, y)
}

#[unsafe(no_mangle)]
pub extern "C" fn pb_u8_checked_rem_euclid(x: u8, y: u8) -> answers::AnswerU8
    ensures { Answers result.ok (pos result.value) (checked_rem 8 (pos x) (pos y)) }
{
    promisebook_u8::pb_u8_checked_rem_euclid(x, y)
}

#[unsafe(no_mangle)]
pub extern "C" fn pb_u8_saturating_add(x: u8, y: u8) -> u8
    ensures { pos result ≡ saturating_add 8 (pos x) (pos y) }
{
    promisebook_u8::pb_u8_saturating_add(x, y)
}

#[unsafe(no_mangle)]
pub extern "C" fn pb_u8_saturating_sub(x: u8, y: u8) -> u8
    ensures { pos result ≡ saturating_sub 8 (pos x) (pos y) }
{
    promisebook_u8::pb_u8_saturating_sub(x, y)
}

#[unsafe(no_mangle)]
pub extern "C" fn pb_u8_saturating_mul(x: u8, y: u8) -> u8
    ensures { pos result ≡ saturating_mul 8 (pos x) (pos y) }
{
    promisebook_u8::pb_u8_saturating_mul(x, y)
}

#[unsafe(no_mangle)]
pub extern "C" fn pb_u8_is_multiple_of(x: u8, y: u8) -> bool
    ensures { result ≡ is_multiple_of (pos x) (pos y) }
{
    promisebook_u8::pb_u8_is_multiple_of(x, y)
}

#[unsafe(no_mangle)]
pub extern "C" fn pb_u8_clone(x: u8) -> u8
    ensures { pos result ≡ clone (pos x) }
{
    promisebook_u8::pb_u8_clone(x)
}

#[unsafe(no_mangle)]
pub extern "C" fn pb_u8_eq(x: u8, y: u8) -> bool
    ensures { result ≡ eq (pos x) (pos y) }
{
    promisebook_u8::pb_u8_eq(x, y)
}

#[unsafe(no_mangle)]
pub extern "C" fn pb_u8_ne(x: u8, y: u8) -> bool
    ensures { result ≡ ne (pos x) (pos y) }
{
    promisebook_u8::pb_u8_ne(x, y)
}

#[unsafe(no_mangle)]
pub extern "C" fn pb_u8_lt(x: u8, y: u8) -> bool
    ensures { result ≡ lt (pos x) (pos y) }
{
    promisebook_u8::pb_u8_lt(x, y)
}

#[unsafe(no_mangle)]
pub extern "C" fn pb_u8_le(x: u8, y: u8) -> bool
    ensures { result ≡ le (pos x) (pos y) }
{
    promisebook_u8::pb_u8_le(x, y)
}

#[unsafe(no_mangle)]
pub extern "C" fn pb_u8_gt(x: u8, y: u8) -> bool
    ensures { result ≡ gt (pos x) (pos y) }
{
    promisebook_u8::pb_u8_gt(x, y)
}

#[unsafe(no_mangle)]
pub extern "C" fn pb_u8_ge(x: u8, y: u8) -> bool
    ensures { result ≡ ge (pos x) (pos y) }
{
    promisebook_u8::pb_u8_ge(x, y)
}

#[unsafe(no_mangle)]
pub extern "C" fn pb_u8_cmp(x: u8, y: u8) -> i8
    ensures { result ≡ numbered (cmp (pos x) (pos y)) }
{
    promisebook_u8::pb_u8_cmp(x, y)
}

#[unsafe(no_mangle)]
pub extern "C" fn pb_u8_partial_cmp(x: u8, y: u8) -> answers::AnswerI8
    ensures { Answers result.ok result.value (Some (numbered (cmp (pos x) (pos y)))) }
{
    promisebook_u8::pb_u8_partial_cmp(x, y)
}
