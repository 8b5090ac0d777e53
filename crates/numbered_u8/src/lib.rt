// The operations of u8 on numbers alone (crate `numbered`), as the faces export them (written by generate/ from the table of operations).
#![tactic(auto)]

use numbered::{Form, Numbers, Operation, Parts};

// Arguments are cut down to their kind's width.
pub fn run(operation: Operation, n: Numbers) -> Option<Parts> {
    let first = n[0];
    let second = n[1];
    let a_u8 = numbered::low8(first);
    let b_u8 = numbered::low8(second);
    let b_i8 = numbered::low8(second).cast_signed();
    let b_u32 = numbered::low32(second);
    match operation.form() {
        Form::NumberOfNumberOther => {
            as_number(promisebook_u8::pb_u8_wrapping_add_signed(a_u8, b_i8))
        }
        Form::NumberOfNumberU32 => number_of_number_u32(operation, a_u8, b_u32),
        Form::CheckedOfNumberOther => {
            as_checked(promisebook_u8::pb_u8_checked_add_signed(a_u8, b_i8))
        }
        Form::NumberOfNumber => as_number(promisebook_u8::pb_u8_clone(a_u8)),
        Form::U32OfNumber => u32_of_number(operation, a_u8),
        _ => of_common(operation, a_u8, b_u8),
    }
}

// Those that take what most of them take.
fn of_common(operation: Operation, a_u8: u8, b_u8: u8) -> Option<Parts> {
    match operation.form() {
        Form::NumberOfNumberNumber => number_of_number_number(operation, a_u8, b_u8),
        Form::CheckedOfNumberNumber => checked_of_number_number(operation, a_u8, b_u8),
        Form::TestOfNumberNumber => test_of_number_number(operation, a_u8, b_u8),
        Form::OrderOfNumberNumber => as_order(promisebook_u8::pb_u8_cmp(a_u8, b_u8)),
        Form::PartialOrderingOfNumberNumber => {
            as_partial_ordering(promisebook_u8::pb_u8_partial_cmp(a_u8, b_u8))
        }
        _ => None,
    }
}

fn number_of_number_number(operation: Operation, x: u8, y: u8) -> Option<Parts> {
    match operation {
        Operation::WrappingAdd => as_number(promisebook_u8::pb_u8_wrapping_add(x, y)),
        Operation::WrappingSub => as_number(promisebook_u8::pb_u8_wrapping_sub(x, y)),
        Operation::WrappingMul => as_number(promisebook_u8::pb_u8_wrapping_mul(x, y)),
        Operation::SaturatingAdd => as_number(promisebook_u8::pb_u8_saturating_add(x, y)),
        Operation::SaturatingSub => as_number(promisebook_u8::pb_u8_saturating_sub(x, y)),
        _ => as_number(promisebook_u8::pb_u8_saturating_mul(x, y)),
    }
}

fn number_of_number_u32(operation: Operation, x: u8, rhs: u32) -> Option<Parts> {
    match operation {
        Operation::WrappingShl => as_number(promisebook_u8::pb_u8_wrapping_shl(x, rhs)),
        _ => as_number(promisebook_u8::pb_u8_wrapping_shr(x, rhs)),
    }
}

fn checked_of_number_number(operation: Operation, x: u8, y: u8) -> Option<Parts> {
    match operation {
        Operation::CheckedAdd => as_checked(promisebook_u8::pb_u8_checked_add(x, y)),
        Operation::CheckedSub => as_checked(promisebook_u8::pb_u8_checked_sub(x, y)),
        Operation::CheckedMul => as_checked(promisebook_u8::pb_u8_checked_mul(x, y)),
        Operation::CheckedNextMultipleOf => {
            as_checked(promisebook_u8::pb_u8_checked_next_multiple_of(x, y))
        }
        Operation::CheckedDiv => as_checked(promisebook_u8::pb_u8_checked_div(x, y)),
        Operation::CheckedDivEuclid => as_checked(promisebook_u8::pb_u8_checked_div_euclid(x, y)),
        Operation::CheckedRem => as_checked(promisebook_u8::pb_u8_checked_rem(x, y)),
        _ => as_checked(promisebook_u8::pb_u8_checked_rem_euclid(x, y)),
    }
}

fn test_of_number_number(operation: Operation, x: u8, y: u8) -> Option<Parts> {
    match operation {
        Operation::IsMultipleOf => as_test(promisebook_u8::pb_u8_is_multiple_of(x, y)),
        Operation::Eq => as_test(promisebook_u8::pb_u8_eq(x, y)),
        Operation::Ne => as_test(promisebook_u8::pb_u8_ne(x, y)),
        Operation::Lt => as_test(promisebook_u8::pb_u8_lt(x, y)),
        Operation::Le => as_test(promisebook_u8::pb_u8_le(x, y)),
        Operation::Gt => as_test(promisebook_u8::pb_u8_gt(x, y)),
        _ => as_test(promisebook_u8::pb_u8_ge(x, y)),
    }
}

fn u32_of_number(operation: Operation, i: u8) -> Option<Parts> {
    match operation {
        Operation::LeadingZeros => as_u32(promisebook_zeros::pb_u8_leading_zeros(i)),
        Operation::LeadingOnes => as_u32(promisebook_zeros::pb_u8_leading_ones(i)),
        Operation::TrailingZeros => as_u32(promisebook_zeros::pb_u8_trailing_zeros(i)),
        _ => as_u32(promisebook_zeros::pb_u8_trailing_ones(i)),
    }
}

fn as_number(r: u8) -> Option<Parts> {
    numbered::found(r as u64)
}

fn as_checked(r: answers::AnswerU8) -> Option<Parts> {
    numbered::told(r.ok, [r.value as u64, 0, 0, 0])
}

fn as_test(r: bool) -> Option<Parts> {
    numbered::found(numbered::bit(r))
}

fn as_order(r: i8) -> Option<Parts> {
    numbered::order(r)
}

fn as_partial_ordering(r: answers::AnswerI8) -> Option<Parts> {
    if r.ok || r.value != 0 {
        numbered::order(r.value)
    } else {
        None
    }
}

fn as_u32(r: u32) -> Option<Parts> {
    numbered::found(r as u64)
}
