// The operations of i16 on numbers alone (crate `numbered`), as the faces export them (written by generate/ from the table of operations).
#![tactic(auto)]

use numbered::{Form, Numbers, Operation, Parts};

// Arguments are cut down to their kind's width.
pub fn run(operation: Operation, n: Numbers) -> Option<Parts> {
    let first = n[0];
    let second = n[1];
    let a_i16 = numbered::low16(first).cast_signed();
    let b_i16 = numbered::low16(second).cast_signed();
    let b_u16 = numbered::low16(second);
    let b_u32 = numbered::low32(second);
    match operation.form() {
        Form::NumberOfNumberOther => {
            as_number(promisebook_i16::pb_i16_wrapping_add_unsigned(a_i16, b_u16))
        }
        Form::NumberOfNumberU32 => number_of_number_u32(operation, a_i16, b_u32),
        Form::CheckedOfNumberOther => checked_of_number_other(operation, a_i16, b_u16),
        Form::NumberOfNumber => as_number(promisebook_i16::pb_i16_clone(a_i16)),
        _ => of_common(operation, a_i16, b_i16),
    }
}

// Those that take what most of them take.
fn of_common(operation: Operation, a_i16: i16, b_i16: i16) -> Option<Parts> {
    match operation.form() {
        Form::NumberOfNumberNumber => number_of_number_number(operation, a_i16, b_i16),
        Form::CheckedOfNumberNumber => checked_of_number_number(operation, a_i16, b_i16),
        Form::TestOfNumberNumber => test_of_number_number(operation, a_i16, b_i16),
        Form::OrderOfNumberNumber => as_order(promisebook_i16::pb_i16_cmp(a_i16, b_i16)),
        Form::PartialOrderingOfNumberNumber => {
            as_partial_ordering(promisebook_i16::pb_i16_partial_cmp(a_i16, b_i16))
        }
        _ => None,
    }
}

fn number_of_number_number(operation: Operation, x: i16, y: i16) -> Option<Parts> {
    match operation {
        Operation::WrappingAdd => as_number(promisebook_i16::pb_i16_wrapping_add(x, y)),
        Operation::WrappingSub => as_number(promisebook_i16::pb_i16_wrapping_sub(x, y)),
        _ => as_number(promisebook_i16::pb_i16_wrapping_mul(x, y)),
    }
}

fn number_of_number_u32(operation: Operation, x: i16, rhs: u32) -> Option<Parts> {
    match operation {
        Operation::WrappingShl => as_number(promisebook_i16::pb_i16_wrapping_shl(x, rhs)),
        _ => as_number(promisebook_i16::pb_i16_wrapping_shr(x, rhs)),
    }
}

fn checked_of_number_number(operation: Operation, x: i16, y: i16) -> Option<Parts> {
    match operation {
        Operation::CheckedAdd => as_checked(promisebook_i16::pb_i16_checked_add(x, y)),
        Operation::CheckedSub => as_checked(promisebook_i16::pb_i16_checked_sub(x, y)),
        Operation::CheckedMul => as_checked(promisebook_i16::pb_i16_checked_mul(x, y)),
        Operation::CheckedDiv => as_checked(promisebook_i16::pb_i16_checked_div(x, y)),
        Operation::CheckedDivEuclid => as_checked(promisebook_i16::pb_i16_checked_div_euclid(x, y)),
        Operation::CheckedRem => as_checked(promisebook_i16::pb_i16_checked_rem(x, y)),
        _ => as_checked(promisebook_i16::pb_i16_checked_rem_euclid(x, y)),
    }
}

fn checked_of_number_other(operation: Operation, x: i16, y: u16) -> Option<Parts> {
    match operation {
        Operation::CheckedAddUnsigned => {
            as_checked(promisebook_i16::pb_i16_checked_add_unsigned(x, y))
        }
        _ => as_checked(promisebook_i16::pb_i16_checked_sub_unsigned(x, y)),
    }
}

fn test_of_number_number(operation: Operation, x: i16, y: i16) -> Option<Parts> {
    match operation {
        Operation::Eq => as_test(promisebook_i16::pb_i16_eq(x, y)),
        Operation::Ne => as_test(promisebook_i16::pb_i16_ne(x, y)),
        Operation::Lt => as_test(promisebook_i16::pb_i16_lt(x, y)),
        Operation::Le => as_test(promisebook_i16::pb_i16_le(x, y)),
        Operation::Gt => as_test(promisebook_i16::pb_i16_gt(x, y)),
        _ => as_test(promisebook_i16::pb_i16_ge(x, y)),
    }
}

fn as_number(r: i16) -> Option<Parts> {
    numbered::found(r.cast_unsigned() as u64)
}

fn as_checked(r: answers::AnswerI16) -> Option<Parts> {
    numbered::told(r.ok, [r.value.cast_unsigned() as u64, 0, 0, 0])
}

fn as_test(r: bool) -> Option<Parts> {
    numbered::found(numbered::bit(r))
}

fn as_order(r: i8) -> Option<Parts> {
    numbered::order(r)
}

fn as_partial_ordering(r: answers::AnswerI8) -> Option<Parts> {
    if r.ok || r.value != 0 {
        numbered::order(r.value)
    } else {
        None
    }
}
