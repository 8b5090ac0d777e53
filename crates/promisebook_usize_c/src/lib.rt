// The exports of promisebook_usize, as a static library: each has the clauses of the face's function, which it calls.
#![tactic(auto)]

ghost use Rattle.std.specs.Prelude.{◌≡◌, pos, Some};
ghost use Rattle.theory_answers.specs.Answer.{Answers};
ghost use Rattle.theory_whole.specs.Order.{numbered};
ghost use Rattle.vstd_integers.specs.Unsigned.{wrapping_add, wrapping_add_signed, wrapping_sub, wrapping_mul, wrapping_shl, wrapping_shr, checked_add};
ghost use Rattle.vstd_integers.specs.Unsigned.{checked_add_signed, checked_sub, checked_mul, checked_next_multiple_of, checked_div, checked_rem};
ghost use Rattle.vstd_integers.specs.Unsigned.{saturating_add, saturating_sub, saturating_mul, is_multiple_of};
ghost use Rattle.vstd_integers.specs.Compare.{clone, eq, ne, cmp, lt, le, gt, ge};

#[unsafe(no_mangle)]
pub extern "C" fn pb_usize_wrapping_add(x: usize, y: usize) -> usize
    ensures { pos result ≡ wrapping_add 64 (pos x) (pos y) }
{
    promisebook_usize::pb_usize_wrapping_add(x, y)
}

#[unsafe(no_mangle)]
pub extern "C" fn pb_usize_wrapping_add_signed(x: usize, y: isize) -> usize
    ensures { pos result ≡ wrapping_add_signed 64 (pos x) y }
{
    promisebook_usize::pb_usize_wrapping_add_signed(x, y)
}

#[unsafe(no_mangle)]
pub extern "C" fn pb_usize_wrapping_sub(x: usize, y: usize) -> usize
    ensures { pos result ≡ wrapping_sub 64 (pos x) (pos y) }
{
    promisebook_usize::pb_usize_wrapping_sub(x, y)
}

#[unsafe(no_mangle)]
pub extern "C" fn pb_usize_wrapping_mul(x: usize, y: usize) -> usize
    ensures { pos result ≡ wrapping_mul 64 (pos x) (pos y) }
{
    promisebook_usize::pb_usize_wrapping_mul(x, y)
}

#[unsafe(no_mangle)]
pub extern "C" fn pb_usize_wrapping_shl(x: usize, rhs: u32) -> usize
    ensures { pos result ≡ wrapping_shl 64 (pos x) rhs }
{
    promisebook_usize::pb_usize_wrapping_shl(x, rhs)
}

#[unsafe(no_mangle)]
pub extern "C" fn pb_usize_wrapping_shr(x: usize, rhs: u32) -> usize
    ensures { pos result ≡ wrapping_shr 64 (pos x) rhs }
{
    promisebook_usize::pb_usize_wrapping_shr(x, rhs)
}

#[unsafe(no_mangle)]
pub extern "C" fn pb_usize_checked_add(x: usize, y: usize) -> answers::AnswerUsize
    ensures { Answers result.ok (pos result.value) (checked_add 64 (pos x) (pos y)) }
{
    promisebook_usize::pb_usize_checked_add(x, y)
}

#[unsafe(no_mangle)]
pub extern "C" fn pb_usize_checked_add_signed(x: usize, y: isize) -> answers::AnswerUsize
    ensures { Answers result.ok (pos result.value) (checked_add_signed 64 (pos x) y) }
{
    promisebook_usize::pb_usize_checked_add_signed(x, y)
}

#[unsafe(no_mangle)]
pub extern "C" fn pb_usize_checked_sub(x: usize, y: usize) -> answers::AnswerUsize
    ensures { Answers result.ok (pos result.value) (checked_sub 64 (pos x) (pos y)) }
{
    promisebook_usize::pb_usize_checked_sub(x, y)
}

#[unsafe(no_mangle)]
pub extern "C" fn pb_usize_checked_mul(x: usize, y: usize) -> answers::AnswerUsize
    ensures { Answers result.ok (pos result.value) (checked_mul 64 (pos x) (pos y)) }
{
    promisebook_usize::pb_usize_checked_mul(x, y)
}

#[unsafe(no_mangle)]
pub extern "C" fn pb_usize_checked_next_multiple_of(x: usize, y: usize) -> answers::AnswerUsize
    ensures { Answers result.ok (pos result.value) (checked_next_multiple_of 64 (pos x) (pos y)) }
{
    promisebook_usize::pb_usize_checked_next_multiple_of(x, y)
}

#[unsafe(no_mangle)]
pub extern "C" fn pb_usize_checked_div(x: usize, y: usize) -> answers::AnswerUsize
    ensures { Answers result.ok (pos result.value) (checked_div 64 (pos x) (pos y)) }
{
    promisebook_usize::pb_usize_checked_div(x, y)
}

#[unsafe(no_mangle)]
pub extern "C" fn pb_usize_checked_div_euclid(x: usize, y: usize) -> answers::AnswerUsize
    ensures { Answers result.ok (pos result.value) (checked_div 64 (pos x) (pos y)) }
{
    promisebook_usize::pb_usize_checked_div_euclid(x, y)
}

#[unsafe(no_mangle)]
pub extern "C" fn pb_usize_checked_rem(x: usize, y: usize) -> answers::AnswerUsize
    ensures { Answers result.ok (pos result.value) (checked_rem 64 (pos x) (pos y)) }
{
    promisebook_usize::pb_usize_checked_rem(x, y)
}

#[unsafe(no_mangle)]
pub extern "C" fn pb_usize_checked_rem_euclid(x: usize, y: usize) -> answers::AnswerUsize
    ensures { Answers result.ok (pos result.value) (checked_rem 64 (pos x) (pos y)) }
{
    promisebook_usize::pb_usize_checked_rem_euclid(x, y)
}

#[unsafe(no_mangle)]
pub extern "C" fn pb_usize_saturating_add(x: usize, y: usize) -> usize
    ensures { pos result ≡ saturating_add 64 (pos x) (pos y) }
{
    promisebook_usize::pb_usize_saturating_add(x, y)
}

#[unsafe(no_mangle)]
pub extern "C" fn pb_usize_saturating_sub(x: usize, y: usize) -> usize
    ensures { pos result ≡ saturating_sub 64 (pos x) (pos y) }
{
    promisebook_usize::pb_usize_saturating_sub(x, y)
}

#[unsafe(no_mangle)]
pub extern "C" fn pb_usize_saturating_mul(x: usize, y: usize) -> usize
    ensures { pos result ≡ saturating_mul 64 (pos x) (pos y) }
{
    promisebook_usize::pb_usize_saturating_mul(x, y)
}

#[unsafe(no_mangle)]
pub extern "C" fn pb_usize_is_multiple_of(x: usize, y: usize) -> bool
    ensures { result ≡ is_multiple_of (pos x) (pos y) }
{
    promisebook_usize::pb_usize_is_multiple_of(x, y)
}

#[unsafe(no_mangle)]
pub extern "C" fn pb_usize_clone(x: usize) -> usize
    ensures { pos result ≡ clone (pos x) }
{
    promisebook_usize::pb_usize_clone(x)
}

#[unsafe(no_mangle)]
pub extern "C" fn pb_usize_eq(x: usize, y: usize) -> bool
    ensures { result ≡ eq (pos x) (pos y) }
{
    promisebook_usize::pb_usize_eq(x, y)
}

#[unsafe(no_mangle)]
pub extern "C" fn pb_usize_ne(x: usize, y: usize) -> bool
    ensures { result ≡ ne (pos x) (pos y) }
{
    promisebook_usize::pb_usize_ne(x, y)
}

#[unsafe(no_mangle)]
pub extern "C" fn pb_usize_lt(x: usize, y: usize) -> bool
    ensures { result ≡ lt (pos x) (pos y) }
{
    promisebook_usize::pb_usize_lt(x, y)
}

#[unsafe(no_mangle)]
pub extern "C" fn pb_usize_le(x: usize, y: usize) -> bool
    ensures { result ≡ le (pos x) (pos y) }
{
    promisebook_usize::pb_usize_le(x, y)
}

#[unsafe(no_mangle)]
pub extern "C" fn pb_usize_gt(x: usize, y: usize) -> bool
    ensures { result ≡ gt (pos x) (pos y) }
{
    promisebook_usize::pb_usize_gt(x, y)
}

#[unsafe(no_mangle)]
pub extern "C" fn pb_usize_ge(x: usize, y: usize) -> bool
    ensures { result ≡ ge (pos x) (pos y) }
{
    promisebook_usize::pb_usize_ge(x, y)
}

#[unsafe(no_mangle)]
pub extern "C" fn pb_usize_cmp(x: usize, y: usize) -> i8
    ensures { result ≡ numbered (cmp (pos x) (pos y)) }
{
    promisebook_usize::pb_usize_cmp(x, y)
}

#[unsafe(no_mangle)]
pub extern "C" fn pb_usize_partial_cmp(x: usize, y: usize) -> answers::AnswerI8
    ensures { Answers result.ok result.value (Some (numbered (cmp (pos x) (pos y)))) }
{
    promisebook_usize::pb_usize_partial_cmp(x, y)
}
