// What vstd promises of i32, kept: each function's contract is vstd's clause (vstd_integers, specs/Signed.antt and specs/Compare.antt), and its body a
// call of ours.
#![tactic(auto)]

ghost use Rattle.std.specs.Prelude.{◌≡◌, pos, Some};
ghost use Rattle.theory_answers.specs.Answer.{Answers};
ghost use Rattle.theory_whole.specs.Order.{numbered};
ghost use Rattle.vstd_integers.specs.Signed.{wrapping_add, wrapping_add_unsigned, wrapping_sub, wrapping_mul, wrapping_shl, wrapping_shr, checked_add};
ghost use Rattle.vstd_integers.specs.Signed.{checked_add_unsigned, checked_sub, checked_sub_unsigned, checked_mul, checked_div, checked_div_euclid};
ghost use Rattle.vstd_integers.specs.Signed.{checked_rem, checked_rem_euclid};
ghost use Rattle.vstd_integers.specs.Compare.{clone, eq, ne, cmp, lt, le, gt, ge};

#[unsafe(no_mangle)]
pub extern "C" fn pb_i32_wrapping_add(x: i32, y: i32) -> i32
    ensures { result ≡ wrapping_add 32 x y }
{
    signed_sums::wrapping_add(x, y)
}

#[unsafe(no_mangle)]
pub extern "C" fn pb_i32_wrapping_add_unsigned(x: i32, y: u32) -> i32
    ensures { result ≡ wrapping_add_unsigned 32 x (pos y) }
{
    signed_sums::wrapping_add_unsigned(x, y)
}

#[unsafe(no_mangle)]
pub extern "C" fn pb_i32_wrapping_sub(x: i32, y: i32) -> i32
    ensures { result ≡ wrapping_sub 32 x y }
{
    signed_sums::wrapping_sub(x, y)
}

#[unsafe(no_mangle)]
pub extern "C" fn pb_i32_wrapping_mul(x: i32, y: i32) -> i32
    ensures { result ≡ wrapping_mul 32 x y }
{
    signed_sums::wrapping_mul(x, y)
}

#[unsafe(no_mangle)]
pub extern "C" fn pb_i32_wrapping_shl(x: i32, rhs: u32) -> i32
    ensures { result ≡ wrapping_shl 32 x rhs }
{
    signed_bits::wrapping_shl(x, rhs)
}

#[unsafe(no_mangle)]
pub extern "C" fn pb_i32_wrapping_shr(x: i32, rhs: u32) -> i32
    ensures { result ≡ wrapping_shr 32 x rhs }
{
    signed_bits::wrapping_shr(x, rhs)
}

#[unsafe(no_mangle)]
pub extern "C" fn pb_i32_checked_add(x: i32, y: i32) -> answers::AnswerI32
    ensures { Answers result.ok result.value (checked_add 32 x y) }
{
    signed_sums::checked_add(x, y).into()
}

#[unsafe(no_mangle)]
pub extern "C" fn pb_i32_checked_add_unsigned(x: i32, y: u32) -> answers::AnswerI32
    ensures { Answers result.ok result.value (checked_add_unsigned 32 x (pos y)) }
{
    signed_sums::checked_add_unsigned(x, y).into()
}

#[unsafe(no_mangle)]
pub extern "C" fn pb_i32_checked_sub(x: i32, y: i32) -> answers::AnswerI32
    ensures { Answers result.ok result.value (checked_sub 32 x y) }
{
    signed_sums::checked_sub(x, y).into()
}

#[unsafe(no_mangle)]
pub extern "C" fn pb_i32_checked_sub_unsigned(x: i32, y: u32) -> answers::AnswerI32
    ensures { Answers result.ok result.value (checked_sub_unsigned 32 x (pos y)) }
{
    signed_sums::checked_sub_unsigned(x, y).into()
}

#[unsafe(no_mangle)]
pub extern "C" fn pb_i32_checked_mul(x: i32, y: i32) -> answers::AnswerI32
    ensures { Answers result.ok result.value (checked_mul 32 x y) }
{
    signed_sums::checked_mul(x, y).into()
}

#[unsafe(no_mangle)]
pub extern "C" fn pb_i32_checked_div(x: i32, y: i32) -> answers::AnswerI32
    ensures { Answers result.ok result.value (checked_div 32 x y) }
{
    signed_division::checked_div(x, y).into()
}

#[unsafe(no_mangle)]
pub extern "C" fn pb_i32_checked_div_euclid(x: i32, y: i32) -> answers::AnswerI32
    ensures { Answers result.ok result.value (checked_div_euclid 32 x y) }
{
    signed_division::checked_div_euclid(x, y).into()
}

#[unsafe(no_mangle)]
pub extern "C" fn pb_i32_checked_rem(x: i32, y: i32) -> answers::AnswerI32
    ensures { Answers result.ok result.value (checked_rem 32 x y) }
{
    signed_division::checked_rem(x, y).into()
}

#[unsafe(no_mangle)]
pub extern "C" fn pb_i32_checked_rem_euclid(x: i32, y: i32) -> answers::AnswerI32
    ensures { Answers result.ok result.value (checked_rem_euclid 32 x y) }
{
    signed_division::checked_rem_euclid(x, y).into()
}

#[unsafe(no_mangle)]
pub extern "C" fn pb_i32_clone(x: i32) -> i32
    ensures { result ≡ clone x }
{
    x
}

#[unsafe(no_mangle)]
pub extern "C" fn pb_i32_eq(x: i32, y: i32) -> bool
    ensures { result ≡ eq x y }
{
    ordering::is_eq(signed_order::compare(x, y))
}

#[unsafe(no_mangle)]
pub extern "C" fn pb_i32_ne(x: i32, y: i32) -> bool
    ensures { result ≡ ne x y }
{
    ordering::is_ne(signed_order::compare(x, y))
}

#[unsafe(no_mangle)]
pub extern "C" fn pb_i32_lt(x: i32, y: i32) -> bool
    ensures { result ≡ lt x y }
{
    ordering::is_lt(signed_order::compare(x, y))
}

#[unsafe(no_mangle)]
pub extern "C" fn pb_i32_le(x: i32, y: i32) -> bool
    ensures { result ≡ le x y }
{
    ordering::is_le(signed_order::compare(x, y))
}

#[unsafe(no_mangle)]
pub extern "C" fn pb_i32_gt(x: i32, y: i32) -> bool
    ensures { result ≡ gt x y }
{
    ordering::is_gt(signed_order::compare(x, y))
}

#[unsafe(no_mangle)]
pub extern "C" fn pb_i32_ge(x: i32, y: i32) -> bool
    ensures { result ≡ ge x y }
{
    ordering::is_ge(signed_order::compare(x, y))
}

#[unsafe(no_mangle)]
pub extern "C" fn pb_i32_cmp(x: i32, y: i32) -> i8
    ensures { result ≡ numbered (cmp x y) }
{
    ordering::number(signed_order::compare(x, y))
}

#[unsafe(no_mangle)]
pub extern "C" fn pb_i32_partial_cmp(x: i32, y: i32) -> answers::AnswerI8
    ensures { Answers result.ok result.value (Some (numbered (cmp x y))) }
{
    Some(ordering::number(signed_order::compare(x, y))).into()
}
