// What vstd promises of u64, kept: each function's contract is vstd's clause (vstd_integers, specs/Unsigned.antt and specs/Compare.antt), and its body a
// call of ours.
#![tactic(auto)]

ghost use Rattle.std.specs.Prelude.{◌≡◌, pos, Some};
ghost use Rattle.theory_answers.specs.Answer.{Answers};
ghost use Rattle.theory_whole.specs.Order.{numbered};
ghost use Rattle.vstd_integers.specs.Unsigned.{wrapping_add, wrapping_add_signed, wrapping_sub, wrapping_mul, wrapping_shl, wrapping_shr, checked_add};
ghost use Rattle.vstd_integers.specs.Unsigned.{checked_add_signed, checked_sub, checked_mul, checked_next_multiple_of, checked_div, checked_rem};
ghost use Rattle.vstd_integers.specs.Unsigned.{saturating_add, saturating_sub, saturating_mul, is_multiple_of};
ghost use Rattle.vstd_integers.specs.Compare.{clone, eq, ne, cmp, lt, le, gt, ge};

#[unsafe(no_mangle)]
pub extern "C" fn pb_u64_wrapping_add(x: u64, y: u64) -> u64
    ensures { pos result ≡ wrapping_add 64 (pos x) (pos y) }
{
    unsigned_sums::wrapping_add(x, y)
}

#[unsafe(no_mangle)]
pub extern "C" fn pb_u64_wrapping_add_signed(x: u64, y: i64) -> u64
    ensures { pos result ≡ wrapping_add_signed 64 (pos x) y }
{
    signed_sums::wrapping_add_signed(x, y)
}

#[unsafe(no_mangle)]
pub extern "C" fn pb_u64_wrapping_sub(x: u64, y: u64) -> u64
    ensures { pos result ≡ wrapping_sub 64 (pos x) (pos y) }
{
    unsigned_sums::wrapping_sub(x, y)
}

#[unsafe(no_mangle)]
pub extern "C" fn pb_u64_wrapping_mul(x: u64, y: u64) -> u64
    ensures { pos result ≡ wrapping_mul 64 (pos x) (pos y) }
{
    unsigned_sums::wrapping_mul(x, y)
}

#[unsafe(no_mangle)]
pub extern "C" fn pb_u64_wrapping_shl(x: u64, rhs: u32) -> u64
    ensures { pos result ≡ wrapping_shl 64 (pos x) rhs }
{
    unsigned_bits::wrapping_shl(x, rhs)
}

#[unsafe(no_mangle)]
pub extern "C" fn pb_u64_wrapping_shr(x: u64, rhs: u32) -> u64
    ensures { pos result ≡ wrapping_shr 64 (pos x) rhs }
{
    unsigned_bits::wrapping_shr(x, rhs)
}

#[unsafe(no_mangle)]
pub extern "C" fn pb_u64_checked_add(x: u64, y: u64) -> answers::AnswerU64
    ensures { Answers result.ok (pos result.value) (checked_add 64 (pos x) (pos y)) }
{
    unsigned_sums::checked_add(x, y).into()
}

#[unsafe(no_mangle)]
pub extern "C" fn pb_u64_checked_add_signed(x: u64, y: i64) -> answers::AnswerU64
    ensures { Answers result.ok (pos result.value) (checked_add_signed 64 (pos x) y) }
{
    signed_sums::checked_add_signed(x, y).into()
}

#[unsafe(no_mangle)]
pub extern "C" fn pb_u64_checked_sub(x: u64, y: u64) -> answers::AnswerU64
    ensures { Answers result.ok (pos result.value) (checked_sub 64 (pos x) (pos y)) }
{
    unsigned_sums::checked_sub(x, y).into()
}

#[unsafe(no_mangle)]
pub extern "C" fn pb_u64_checked_mul(x: u64, y: u64) -> answers::AnswerU64
    ensures { Answers result.ok (pos result.value) (checked_mul 64 (pos x) (pos y)) }
{
    unsigned_sums::checked_mul(x, y).into()
}

#[unsafe(no_mangle)]
pub extern "C" fn pb_u64_checked_next_multiple_of(x: u64, y: u64) -> answers::AnswerU64
    ensures { Answers result.ok (pos result.value) (checked_next_multiple_of 64 (pos x) (pos y)) }
{
    unsigned_division::checked_next_multiple_of(x, y).into()
}

#[unsafe(no_mangle)]
pub extern "C" fn pb_u64_checked_div(x: u64, y: u64) -> answers::AnswerU64
    ensures { Answers result.ok (pos result.value) (checked_div 64 (pos x) (pos y)) }
{
    unsigned_division::checked_div(x, y).into()
}

#[unsafe(no_mangle)]
pub extern "C" fn pb_u64_checked_div_euclid(x: u64, y: u64) -> answers::AnswerU64
    ensures { Answers result.ok (pos result.value) (checked_div 64 (pos x) (pos y)) }
{
    unsigned_division::checked_div_euclid(x, y).into()
}

#[unsafe(no_mangle)]
pub extern "C" fn pb_u64_checked_rem(x: u64, y: u64) -> answers::AnswerU64
    ensures { Answers result.ok (pos result.value) (checked_rem 64 (pos x) (pos y)) }
{
    unsigned_division::checked_rem(x, y).into()
}

#[unsafe(no_mangle)]
pub extern "C" fn pb_u64_checked_rem_euclid(x: u64, y: u64) -> answers::AnswerU64
    ensures { Answers result.ok (pos result.value) (checked_rem 64 (pos x) (pos y)) }
{
    unsigned_division::checked_rem_euclid(x, y).into()
}

#[unsafe(no_mangle)]
pub extern "C" fn pb_u64_saturating_add(x: u64, y: u64) -> u64
    ensures { pos result ≡ saturating_add 64 (pos x) (pos y) }
{
    unsigned_sums::saturating_add(x, y)
}

#[unsafe(no_mangle)]
pub extern "C" fn pb_u64_saturating_sub(x: u64, y: u64) -> u64
    ensures { pos result ≡ saturating_sub 64 (pos x) (pos y) }
{
    unsigned_sums::saturating_sub(x, y)
}

#[unsafe(no_mangle)]
pub extern "C" fn pb_u64_saturating_mul(x: u64, y: u64) -> u64
    ensures { pos result ≡ saturating_mul 64 (pos x) (pos y) }
{
    unsigned_sums::saturating_mul(x, y)
}

#[unsafe(no_mangle)]
pub extern "C" fn pb_u64_is_multiple_of(x: u64, y: u64) -> bool
    ensures { result ≡ is_multiple_of (pos x) (pos y) }
{
    unsigned_division::is_multiple_of(x, y)
}

#[unsafe(no_mangle)]
pub extern "C" fn pb_u64_clone(x: u64) -> u64
    ensures { pos result ≡ clone (pos x) }
{
    x
}

#[unsafe(no_mangle)]
pub extern "C" fn pb_u64_eq(x: u64, y: u64) -> bool
    ensures { result ≡ eq (pos x) (pos y) }
{
    ordering::is_eq(unsigned_order::compare(x, y))
}

#[unsafe(no_mangle)]
pub extern "C" fn pb_u64_ne(x: u64, y: u64) -> bool
    ensures { result ≡ ne (pos x) (pos y) }
{
    ordering::is_ne(unsigned_order::compare(x, y))
}

#[unsafe(no_mangle)]
pub extern "C" fn pb_u64_lt(x: u64, y: u64) -> bool
    ensures { result ≡ lt (pos x) (pos y) }
{
    ordering::is_lt(unsigned_order::compare(x, y))
}

#[unsafe(no_mangle)]
pub extern "C" fn pb_u64_le(x: u64, y: u64) -> bool
    ensures { result ≡ le (pos x) (pos y) }
{
    ordering::is_le(unsigned_order::compare(x, y))
}

#[unsafe(no_mangle)]
pub extern "C" fn pb_u64_gt(x: u64, y: u64) -> bool
    ensures { result ≡ gt (pos x) (pos y) }
{
    ordering::is_gt(unsigned_order::compare(x, y))
}

#[unsafe(no_mangle)]
pub extern "C" fn pb_u64_ge(x: u64, y: u64) -> bool
    ensures { result ≡ ge (pos x) (pos y) }
{
    ordering::is_ge(unsigned_order::compare(x, y))
}

#[unsafe(no_mangle)]
pub extern "C" fn pb_u64_cmp(x: u64, y: u64) -> i8
    ensures { result ≡ numbered (cmp (pos x) (pos y)) }
{
    ordering::number(unsigned_order::compare(x, y))
}

#[unsafe(no_mangle)]
pub extern "C" fn pb_u64_partial_cmp(x: u64, y: u64) -> answers::AnswerI8
    ensures { Answers result.ok result.value (Some (numbered (cmp (pos x) (pos y)))) }
{
    Some(ordering::number(unsigned_order::compare(x, y))).into()
}
