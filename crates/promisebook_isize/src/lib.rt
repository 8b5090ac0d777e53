// What vstd promises of isize, kept: each function's contract is vstd's clause (vstd_integers, specs/Signed.antt and specs/Compare.antt), and its body a
// call of ours.
#![tactic(auto)]

ghost use Rattle.std.specs.Prelude.{◌≡◌, pos, Some};
ghost use Rattle.theory_answers.specs.Answer.{Answers};
ghost use Rattle.theory_whole.specs.Order.{numbered};
ghost use Rattle.vstd_integers.specs.Signed.{wrapping_add, wrapping_add_unsigned, wrapping_sub, wrapping_mul, wrapping_shl, wrapping_shr, checked_add};
ghost use Rattle.vstd_integers.specs.Signed.{checked_add_unsigned, checked_sub, checked_sub_unsigned, checked_mul, checked_div, checked_div_euclid};
ghost use Rattle.vstd_integers.specs.Signed.{checked_rem, checked_rem_euclid};
ghost use Rattle.vstd_integers.specs.Compare.{clone, eq, ne, cmp, lt, le, gt, ge};

#[unsafe(no_mangle)]
pub extern "C" fn pb_isize_wrapping_add(x: isize, y: isize) -> isize
    ensures { result ≡ wrapping_add 64 x y }
{
    signed_sums::wrapping_add(x, y)
}

#[unsafe(no_mangle)]
pub extern "C" fn pb_isize_wrapping_add_unsigned(x: isize, y: usize) -> isize
    ensures { result ≡ wrapping_add_unsigned 64 x (pos y) }
{
    signed_sums::wrapping_add_unsigned(x, y)
}

#[unsafe(no_mangle)]
pub extern "C" fn pb_isize_wrapping_sub(x: isize, y: isize) -> isize
    ensures { result ≡ wrapping_sub 64 x y }
{
    signed_sums::wrapping_sub(x, y)
}

#[unsafe(no_mangle)]
pub extern "C" fn pb_isize_wrapping_mul(x: isize, y: isize) -> isize
    ensures { result ≡ wrapping_mul 64 x y }
{
    signed_sums::wrapping_mul(x, y)
}

#[unsafe(no_mangle)]
pub extern "C" fn pb_isize_wrapping_shl(x: isize, rhs: u32) -> isize
    ensures { result ≡ wrapping_shl 64 x rhs }
{
    signed_bits::wrapping_shl(x, rhs)
}

#[unsafe(no_mangle)]
pub extern "C" fn pb_isize_wrapping_shr(x: isize, rhs: u32) -> isize
    ensures { result ≡ wrapping_shr 64 x rhs }
{
    signed_bits::wrapping_shr(x, rhs)
}

#[unsafe(no_mangle)]
pub extern "C" fn pb_isize_checked_add(x: isize, y: isize) -> answers::AnswerIsize
    ensures { Answers result.ok result.value (checked_add 64 x y) }
{
    signed_sums::checked_add(x, y).into()
}

#[unsafe(no_mangle)]
pub extern "C" fn pb_isize_checked_add_unsigned(x: isize, y: usize) -> answers::AnswerIsize
    ensures { Answers result.ok result.value (checked_add_unsigned 64 x (pos y)) }
{
    signed_sums::checked_add_unsigned(x, y).into()
}

#[unsafe(no_mangle)]
pub extern "C" fn pb_isize_checked_sub(x: isize, y: isize) -> answers::AnswerIsize
    ensures { Answers result.ok result.value (checked_sub 64 x y) }
{
    signed_sums::checked_sub(x, y).into()
}

#[unsafe(no_mangle)]
pub extern "C" fn pb_isize_checked_sub_unsigned(x: isize, y: usize) -> answers::AnswerIsize
    ensures { Answers result.ok result.value (checked_sub_unsigned 64 x (pos y)) }
{
    signed_sums::checked_sub_unsigned(x, y).into()
}

#[unsafe(no_mangle)]
pub extern "C" fn pb_isize_checked_mul(x: isize, y: isize) -> answers::AnswerIsize
    ensures { Answers result.ok result.value (checked_mul 64 x y) }
{
    signed_sums::checked_mul(x, y).into()
}

#[unsafe(no_mangle)]
pub extern "C" fn pb_isize_checked_div(x: isize, y: isize) -> answers::AnswerIsize
    ensures { Answers result.ok result.value (checked_div 64 x y) }
{
    signed_division::checked_div(x, y).into()
}

#[unsafe(no_mangle)]
pub extern "C" fn pb_isize_checked_div_euclid(x: isize, y: isize) -> answers::AnswerIsize
    ensures { Answers result.ok result.value (checked_div_euclid 64 x y) }
{
    signed_division::checked_div_euclid(x, y).into()
}

#[unsafe(no_mangle)]
pub extern "C" fn pb_isize_checked_rem(x: isize, y: isize) -> answers::AnswerIsize
    ensures { Answers result.ok result.value (checked_rem 64 x y) }
{
    signed_division::checked_rem(x, y).into()
}

#[unsafe(no_mangle)]
pub extern "C" fn pb_isize_checked_rem_euclid(x: isize, y: isize) -> answers::AnswerIsize
    ensures { Answers result.ok result.value (checked_rem_euclid 64 x y) }
{
    signed_division::checked_rem_euclid(x, y).into()
}

#[unsafe(no_mangle)]
pub extern "C" fn pb_isize_clone(x: isize) -> isize
    ensures { result ≡ clone x }
{
    x
}

#[unsafe(no_mangle)]
pub extern "C" fn pb_isize_eq(x: isize, y: isize) -> bool
    ensures { result ≡ eq x y }
{
    ordering::is_eq(signed_order::compare(x, y))
}

#[unsafe(no_mangle)]
pub extern "C" fn pb_isize_ne(x: isize, y: isize) -> bool
    ensures { result ≡ ne x y }
{
    ordering::is_ne(signed_order::compare(x, y))
}

#[unsafe(no_mangle)]
pub extern "C" fn pb_isize_lt(x: isize, y: isize) -> bool
    ensures { result ≡ lt x y }
{
    ordering::is_lt(signed_order::compare(x, y))
}

#[unsafe(no_mangle)]
pub extern "C" fn pb_isize_le(x: isize, y: isize) -> bool
    ensures { result ≡ le x y }
{
    ordering::is_le(signed_order::compare(x, y))
}

#[unsafe(no_mangle)]
pub extern "C" fn pb_isize_gt(x: isize, y: isize) -> bool
    ensures { result ≡ gt x y }
{
    ordering::is_gt(signed_order::compare(x, y))
}

#[unsafe(no_mangle)]
pub extern "C" fn pb_isize_ge(x: isize, y: isize) -> bool
    ensures { result ≡ ge x y }
{
    ordering::is_ge(signed_order::compare(x, y))
}

#[unsafe(no_mangle)]
pub extern "C" fn pb_isize_cmp(x: isize, y: isize) -> i8
    ensures { result ≡ numbered (cmp x y) }
{
    ordering::number(signed_order::compare(x, y))
}

#[unsafe(no_mangle)]
pub extern "C" fn pb_isize_partial_cmp(x: isize, y: isize) -> answers::AnswerI8
    ensures { Answers result.ok result.value (Some (numbered (cmp x y))) }
{
    Some(ordering::number(signed_order::compare(x, y))).into()
}
