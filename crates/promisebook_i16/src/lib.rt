// What vstd promises of i16, kept: each function's contract is vstd's clause (vstd_integers, specs/Signed.antt and specs/Compare.antt), and its body a
// call of ours.
#![tactic(auto)]

ghost use Rattle.std.specs.Prelude.{◌≡◌, pos, Some};
ghost use Rattle.theory_answers.specs.Answer.{Answers};
ghost use Rattle.theory_whole.specs.Order.{numbered};
ghost use Rattle.vstd_integers.specs.Signed.{wrapping_add, wrapping_add_unsigned, wrapping_sub, wrapping_mul, wrapping_shl, wrapping_shr, checked_add};
ghost use Rattle.vstd_integers.specs.Signed.{checked_add_unsigned, checked_sub, checked_sub_unsigned, checked_mul, checked_div, checked_div_euclid};
ghost use Rattle.vstd_integers.specs.Signed.{checked_rem, checked_rem_euclid};
ghost use Rattle.vstd_integers.specs.Compare.{clone, eq, ne, cmp, lt, le, gt, ge};

#[unsafe(no_mangle)]
pub extern "C" fn pb_i16_wrapping_add(x: i16, y: i16) -> i16
    ensures { result ≡ wrapping_add 16 x y }
{
    signed_sums::wrapping_add(x, y)
}

#[unsafe(no_mangle)]
pub extern "C" fn pb_i16_wrapping_add_unsigned(x: i16, y: u16) -> i16
    ensures { result ≡ wrapping_add_unsigned 16 x (pos y) }
{
    signed_sums::wrapping_add_unsigned(x, y)
}

#[unsafe(no_mangle)]
pub extern "C" fn pb_i16_wrapping_sub(x: i16, y: i16) -> i16
    ensures { result ≡ wrapping_sub 16 x y }
{
    signed_sums::wrapping_sub(x, y)
}

#[unsafe(no_mangle)]
pub extern "C" fn pb_i16_wrapping_mul(x: i16, y: i16) -> i16
    ensures { result ≡ wrapping_mul 16 x y }
{
    signed_sums::wrapping_mul(x, y)
}

#[unsafe(no_mangle)]
pub extern "C" fn pb_i16_wrapping_shl(x: i16, rhs: u32) -> i16
    ensures { result ≡ wrapping_shl 16 x rhs }
{
    signed_bits::wrapping_shl(x, rhs)
}

#[unsafe(no_mangle)]
pub extern "C" fn pb_i16_wrapping_shr(x: i16, rhs: u32) -> i16
    ensures { result ≡ wrapping_shr 16 x rhs }
{
    signed_bits::wrapping_shr(x, rhs)
}

#[unsafe(no_mangle)]
pub extern "C" fn pb_i16_checked_add(x: i16, y: i16) -> answers::AnswerI16
    ensures { Answers result.ok result.value (checked_add 16 x y) }
{
    signed_sums::checked_add(x, y).into()
}

#[unsafe(no_mangle)]
pub extern "C" fn pb_i16_checked_add_unsigned(x: i16, y: u16) -> answers::AnswerI16
    ensures { Answers result.ok result.value (checked_add_unsigned 16 x (pos y)) }
{
    signed_sums::checked_add_unsigned(x, y).into()
}

#[unsafe(no_mangle)]
pub extern "C" fn pb_i16_checked_sub(x: i16, y: i16) -> answers::AnswerI16
    ensures { Answers result.ok result.value (checked_sub 16 x y) }
{
    signed_sums::checked_sub(x, y).into()
}

#[unsafe(no_mangle)]
pub extern "C" fn pb_i16_checked_sub_unsigned(x: i16, y: u16) -> answers::AnswerI16
    ensures { Answers result.ok result.value (checked_sub_unsigned 16 x (pos y)) }
{
    signed_sums::checked_sub_unsigned(x, y).into()
}

#[unsafe(no_mangle)]
pub extern "C" fn pb_i16_checked_mul(x: i16, y: i16) -> answers::AnswerI16
    ensures { Answers result.ok result.value (checked_mul 16 x y) }
{
    signed_sums::checked_mul(x, y).into()
}

#[unsafe(no_mangle)]
pub extern "C" fn pb_i16_checked_div(x: i16, y: i16) -> answers::AnswerI16
    ensures { Answers result.ok result.value (checked_div 16 x y) }
{
    signed_division::checked_div(x, y).into()
}

#[unsafe(no_mangle)]
pub extern "C" fn pb_i16_checked_div_euclid(x: i16, y: i16) -> answers::AnswerI16
    ensures { Answers result.ok result.value (checked_div_euclid 16 x y) }
{
    signed_division::checked_div_euclid(x, y).into()
}

#[unsafe(no_mangle)]
pub extern "C" fn pb_i16_checked_rem(x: i16, y: i16) -> answers::AnswerI16
    ensures { Answers result.ok result.value (checked_rem 16 x y) }
{
    signed_division::checked_rem(x, y).into()
}

#[unsafe(no_mangle)]
pub extern "C" fn pb_i16_checked_rem_euclid(x: i16, y: i16) -> answers::AnswerI16
    ensures { Answers result.ok result.value (checked_rem_euclid 16 x y) }
{
    signed_division::checked_rem_euclid(x, y).into()
}

#[unsafe(no_mangle)]
pub extern "C" fn pb_i16_clone(x: i16) -> i16
    ensures { result ≡ clone x }
{
    x
}

#[unsafe(no_mangle)]
pub extern "C" fn pb_i16_eq(x: i16, y: i16) -> bool
    ensures { result ≡ eq x y }
{
    ordering::is_eq(signed_order::compare(x, y))
}

#[unsafe(no_mangle)]
pub extern "C" fn pb_i16_ne(x: i16, y: i16) -> bool
    ensures { result ≡ ne x y }
{
    ordering::is_ne(signed_order::compare(x, y))
}

#[unsafe(no_mangle)]
pub extern "C" fn pb_i16_lt(x: i16, y: i16) -> bool
    ensures { result ≡ lt x y }
{
    ordering::is_lt(signed_order::compare(x, y))
}

#[unsafe(no_mangle)]
pub extern "C" fn pb_i16_le(x: i16, y: i16) -> bool
    ensures { result ≡ le x y }
{
    ordering::is_le(signed_order::compare(x, y))
}

#[unsafe(no_mangle)]
pub extern "C" fn pb_i16_gt(x: i16, y: i16) -> bool
    ensures { result ≡ gt x y }
{
    ordering::is_gt(signed_order::compare(x, y))
}

#[unsafe(no_mangle)]
pub extern "C" fn pb_i16_ge(x: i16, y: i16) -> bool
    ensures { result ≡ ge x y }
{
    ordering::is_ge(signed_order::compare(x, y))
}

#[unsafe(no_mangle)]
pub extern "C" fn pb_i16_cmp(x: i16, y: i16) -> i8
    ensures { result ≡ numbered (cmp x y) }
{
    ordering::number(signed_order::compare(x, y))
}

#[unsafe(no_mangle)]
pub extern "C" fn pb_i16_partial_cmp(x: i16, y: i16) -> answers::AnswerI8
    ensures { Answers result.ok result.value (Some (numbered (cmp x y))) }
{
    Some(ordering::number(signed_order::compare(x, y))).into()
}
