// The exports of promisebook_isize, as a static library: each has the clauses of the face's function, which it calls.
#![tactic(auto)]

ghost use Rattle.std.specs.Prelude.{◌≡◌, pos, Some};
ghost use Rattle.theory_answers.specs.Answer.{Answers};
ghost use Rattle.theory_whole.specs.Order.{numbered};
ghost use Rattle.vstd_integers.specs.Signed.{wrapping_add, wrapping_add_unsigned, wrapping_sub, wrapping_mul, wrapping_shl, wrapping_shr, checked_add};
ghost use Rattle.vstd_integers.specs.Signed.{checked_add_unsigned, checked_sub, checked_sub_unsigned, checked_mul, checked_div, checked_div_euclid};
ghost use Rattle.vstd_integers.specs.Signed.{checked_rem, checked_rem_euclid};
ghost use Rattle.vstd_integers.specs.Compare.{clone, eq, ne, cmp, lt, le, gt, ge};

#[unsafe(no_mangle)]
pub extern "C" fn pb_isize_wrapping_add(x: isize, y: isize) -> isize
    ensures { result ≡ wrapping_add 64 x y }
{
    promisebook_isize::pb_isize_wrapping_add(x, y)
}

#[unsafe(no_mangle)]
pub extern "C" fn pb_isize_wrapping_add_unsigned(x: isize, y: usize) -> isize
    ensures { result ≡ wrapping_add_unsigned 64 x (pos y) }
{
    promisebook_isize::pb_isize_wrapping_add_unsigned(x, y)
}

#[unsafe(no_mangle)]
pub extern "C" fn pb_isize_wrapping_sub(x: isize, y: isize) -> isize
    ensures { result ≡ wrapping_sub 64 x y }
{
    promisebook_isize::pb_isize_wrapping_sub(x, y)
}

#[unsafe(no_mangle)]
pub extern "C" fn pb_isize_wrapping_mul(x: isize, y: isize) -> isize
    ensures { result ≡ wrapping_mul 64 x y }
{
    promisebook_isize::pb_isize_wrapping_mul(x, y)
}

#[unsafe(no_mangle)]
pub extern "C" fn pb_isize_wrapping_shl(x: isize, rhs: u32) -> isize
    ensures { result ≡ wrapping_shl 64 x rhs }
{
    promisebook_isize::pb_isize_wrapping_shl(x, rhs)
}

#[unsafe(no_mangle)]
pub extern "C" fn pb_isize_wrapping_shr(x: isize, rhs: u32) -> isize
    ensures { result ≡ wrapping_shr 64 x rhs }
{
    promisebook_isize::pb_isize_wrapping_shr(x, rhs)
}

#[unsafe(no_mangle)]
pub extern "C" fn pb_isize_checked_add(x: isize, y: isize) -> answers::AnswerIsize
    ensures { Answers result.ok result.value (checked_add 64 x y) }
{
    promisebook_isize::pb_isize_checked_add(x, y)
}

#[unsafe(no_mangle)]
pub extern "C" fn pb_isize_checked_add_unsigned(x: isize, y: usize) -> answers::AnswerIsize
    ensures { Answers result.ok result.value (checked_add_unsigned 64 x (pos y)) }
{
    promisebook_isize::pb_isize_checked_add_unsigned(x, y)
}

#[unsafe(no_mangle)]
pub extern "C" fn pb_isize_checked_sub(x: isize, y: isize) -> answers::AnswerIsize
    ensures { Answers result.ok result.value (checked_sub 64 x y) }
{
    promisebook_isize::pb_isize_checked_sub(x, y)
}

#[unsafe(no_mangle)]
pub extern "C" fn pb_isize_checked_sub_unsigned(x: isize, y: usize) -> answers::AnswerIsize
    ensures { Answers result.ok result.value (checked_sub_unsigned 64 x (pos y)) }
{
    promisebook_isize::pb_isize_checked_sub_unsigned(x, y)
}

#[unsafe(no_mangle)]
pub extern "C" fn pb_isize_checked_mul(x: isize, y: isize) -> answers::AnswerIsize
    ensures { Answers result.ok result.value (checked_mul 64 x y) }
{
    promisebook_isize::pb_isize_checked_mul(x, y)
}

#[unsafe(no_mangle)]
pub extern "C" fn pb_isize_checked_div(x: isize, y: isize) -> answers::AnswerIsize
    ensures { Answers result.ok result.value (checked_div 64 x y) }
{
    promisebook_isize::pb_isize_checked_div(x, y)
}

#[unsafe(no_mangle)]
pub extern "C" fn pb_isize_checked_div_euclid(x: isize, y: isize) -> answers::AnswerIsize
    ensures { Answers result.ok result.value (checked_div_euclid 64 x y) }
{
    promisebook_isize::pb_isize_checked_div_euclid(x, y)
}

#[unsafe(no_mangle)]
pub extern "C" fn pb_isize_checked_rem(x: isize, y: isize) -> answers::AnswerIsize
    ensures { Answers result.ok result.value (checked_rem 64 x y) }
{
    promisebook_isize::pb_isize_checked_rem(x, y)
}

#[unsafe(no_mangle)]
pub extern "C" fn pb_isize_checked_rem_euclid(x: isize, y: isize) -> answers::AnswerIsize
    ensures { Answers result.ok result.value (checked_rem_euclid 64 x y) }
{
    promisebook_isize::pb_isize_checked_rem_euclid(x, y)
}

#[unsafe(no_mangle)]
pub extern "C" fn pb_isize_clone(x: isize) -> isize
    ensures { result ≡ clone x }
{
    promisebook_isize::pb_isize_clone(x)
}

#[unsafe(no_mangle)]
pub extern "C" fn pb_isize_eq(x: isize, y: isize) -> bool
    ensures { result ≡ eq x y }
{
    promisebook_isize::pb_isize_eq(x, y)
}

#[unsafe(no_mangle)]
pub extern "C" fn pb_isize_ne(x: isize, y: isize) -> bool
    ensures { result ≡ ne x y }
{
    promisebook_isize::pb_isize_ne(x, y)
}

#[unsafe(no_mangle)]
pub extern "C" fn pb_isize_lt(x: isize, y: isize) -> bool
    ensures { result ≡ lt x y }
{
    promisebook_isize::pb_isize_lt(x, y)
}

#[unsafe(no_mangle)]
pub extern "C" fn pb_isize_le(x: isize, y: isize) -> bool
    ensures { result ≡ le x y }
{
    promisebook_isize::pb_isize_le(x, y)
}

#[unsafe(no_mangle)]
pub extern "C" fn pb_isize_gt(x: isize, y: isize) -> bool
    ensures { result ≡ gt x y }
{
    promisebook_isize::pb_isize_gt(x, y)
}

#[unsafe(no_mangle)]
pub extern "C" fn pb_isize_ge(x: isize, y: isize) -> bool
    ensures { result ≡ ge x y }
{
    promisebook_isize::pb_isize_ge(x, y)
}

#[unsafe(no_mangle)]
pub extern "C" fn pb_isize_cmp(x: isize, y: isize) -> i8
    ensures { result ≡ numbered (cmp x y) }
{
    promisebook_isize::pb_isize_cmp(x, y)
}

#[unsafe(no_mangle)]
pub extern "C" fn pb_isize_partial_cmp(x: isize, y: isize) -> answers::AnswerI8
    ensures { Answers result.ok result.value (Some (numbered (cmp x y))) }
{
    promisebook_isize::pb_isize_partial_cmp(x, y)
}
