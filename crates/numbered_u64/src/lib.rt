// The operations of u64 on numbers alone (crate `numbered`), as the faces export them (written by generate/ from the table of operations).
#![tactic(auto)]

use numbered::{Form, Numbers, Operation, Parts};

// Arguments are cut down to their kind's width.
pub fn run(operation: Operation, n: Numbers) -> Option<Parts> {
    let first = n[0];
    let second = n[1];
    let a_u64 = first;
    let b_u64 = second;
    let b_i64 = second.cast_signed();
    let b_u32 = numbered::low32(second);
    match operation.form() {
        Form::NumberOfNumberOther => {
            as_number(promisebook_u64::pb_u64_wrapping_add_signed(a_u64, b_i64))
        }
        Form::NumberOfNumberU32 => number_of_number_u32(operation, a_u64, b_u32),
        Form::CheckedOfNumberOther => {
            as_checked(promisebook_u64::pb_u64_checked_add_signed(a_u64, b_i64))
        }
        Form::NumberOfNumber => as_number(promisebook_u64::pb_u64_clone(a_u64)),
        Form::U32OfNumber => u32_of_number(operation, a_u64),
        _ => of_common(operation, a_u64, b_u64),
    }
}

// Those that take what most of them take.
fn of_common(operation: Operation, a_u64: u64, b_u64: u64) -> Option<Parts> {
    match operation.form() {
        Form::NumberOfNumberNumber => number_of_number_number(operation, a_u64, b_u64),
        Form::CheckedOfNumberNumber => checked_of_number_number(operation, a_u64, b_u64),
        Form::TestOfNumberNumber => test_of_number_number(operation, a_u64, b_u64),
        Form::OrderOfNumberNumber => as_order(promisebook_u64::pb_u64_cmp(a_u64, b_u64)),
        Form::PartialOrderingOfNumberNumber => {
            as_partial_ordering(promisebook_u64::pb_u64_partial_cmp(a_u64, b_u64))
        }
        _ => None,
    }
}

fn number_of_number_number(operation: Operation, x: u64, y: u64) -> Option<Parts> {
    match operation {
        Operation::WrappingAdd => as_number(promisebook_u64::pb_u64_wrapping_add(x, y)),
        Operation::WrappingSub => as_number(promisebook_u64::pb_u64_wrapping_sub(x, y)),
        Operation::WrappingMul => as_number(promisebook_u64::pb_u64_wrapping_mul(x, y)),
        Operation::SaturatingAdd => as_number(promisebook_u64::pb_u64_saturating_add(x, y)),
        Operation::SaturatingSub => as_number(promisebook_u64::pb_u64_saturating_sub(x, y)),
        _ => as_number(promisebook_u64::pb_u64_saturating_mul(x, y)),
    }
}

fn number_of_number_u32(operation: Operation, x: u64, rhs: u32) -> Option<Parts> {
    match operation {
        Operation::WrappingShl => as_number(promisebook_u64::pb_u64_wrapping_shl(x, rhs)),
        _ => as_number(promisebook_u64::pb_u64_wrapping_shr(x, rhs)),
    }
}

fn checked_of_number_number(operation: Operation, x: u64, y: u64) -> Option<Parts> {
    match operation {
        Operation::CheckedAdd => as_checked(promisebook_u64::pb_u64_checked_add(x, y)),
        Operation::CheckedSub => as_checked(promisebook_u64::pb_u64_checked_sub(x, y)),
        Operation::CheckedMul => as_checked(promisebook_u64::pb_u64_checked_mul(x, y)),
        Operation::CheckedNextMultipleOf => {
            as_checked(promisebook_u64::pb_u64_checked_next_multiple_of(x, y))
        }
        Operation::CheckedDiv => as_checked(promisebook_u64::pb_u64_checked_div(x, y)),
        Operation::CheckedDivEuclid => as_checked(promisebook_u64::pb_u64_checked_div_euclid(x, y)),
        Operation::CheckedRem => as_checked(promisebook_u64::pb_u64_checked_rem(x, y)),
        _ => as_checked(promisebook_u64::pb_u64_checked_rem_euclid(x, y)),
    }
}

fn test_of_number_number(operation: Operation, x: u64, y: u64) -> Option<Parts> {
    match operation {
        Operation::IsMultipleOf => as_test(promisebook_u64::pb_u64_is_multiple_of(x, y)),
        Operation::Eq => as_test(promisebook_u64::pb_u64_eq(x, y)),
        Operation::Ne => as_test(promisebook_u64::pb_u64_ne(x, y)),
        Operation::Lt => as_test(promisebook_u64::pb_u64_lt(x, y)),
        Operation::Le => as_test(promisebook_u64::pb_u64_le(x, y)),
        Operation::Gt => as_test(promisebook_u64::pb_u64_gt(x, y)),
        _ => as_test(promisebook_u64::pb_u64_ge(x, y)),
    }
}

fn u32_of_number(operation: Operation, i: u64) -> Option<Parts> {
    match operation {
        Operation::LeadingZeros => as_u32(promisebook_zeros::pb_u64_leading_zeros(i)),
        Operation::LeadingOnes => as_u32(promisebook_zeros::pb_u64_leading_ones(i)),
        Operation::TrailingZeros => as_u32(promisebook_zeros::pb_u64_trailing_zeros(i)),
        _ => as_u32(promisebook_zeros::pb_u64_trailing_ones(i)),
    }
}

fn as_number(r: u64) -> Option<Parts> {
    numbered::found(r)
}

fn as_checked(r: answers::AnswerU64) -> Option<Parts> {
    numbered::told(r.ok, [r.value, 0, 0, 0])
}

fn as_test(r: bool) -> Option<Parts> {
    numbered::found(numbered::bit(r))
}

fn as_order(r: i8) -> Option<Parts> {
    numbered::order(r)
}

fn as_partial_ordering(r: answers::AnswerI8) -> Option<Parts> {
    if r.ok || r.value != 0 {
        numbered::order(r.value)
    } else {
        None
    }
}

fn as_u32(r: u32) -> Option<Parts> {
    numbered::found(r as u64)
}
