// The operations of i64 on numbers alone (crate `numbered`), as the faces export them (written by generate/ from the table of operations).
#![tactic(auto)]

use numbered::{Form, Numbers, Operation, Parts};

// Arguments are cut down to their kind's width.
pub fn run(operation: Operation, n: Numbers) -> Option<Parts> {
    let first = n[0];
    let second = n[1];
    let a_i64 = first.cast_signed();
    let b_i64 = second.cast_signed();
    let b_u64 = second;
    let b_u32 = numbered::low32(second);
    match operation.form() {
        Form::NumberOfNumberOther => {
            as_number(promisebook_i64::pb_i64_wrapping_add_unsigned(a_i64, b_u64))
        }
        Form::NumberOfNumberU32 => number_of_number_u32(operation, a_i64, b_u32),
        Form::CheckedOfNumberOther => checked_of_number_other(operation, a_i64, b_u64),
        Form::NumberOfNumber => as_number(promisebook_i64::pb_i64_clone(a_i64)),
        _ => of_common(operation, a_i64, b_i64),
    }
}

// Those that take what most of them take.
fn of_common(operation: Operation, a_i64: i64, b_i64: i64) -> Option<Parts> {
    match operation.form() {
        Form::NumberOfNumberNumber => number_of_number_number(operation, a_i64, b_i64),
        Form::CheckedOfNumberNumber => checked_of_number_number(operation, a_i64, b_i64),
        Form::TestOfNumberNumber => test_of_number_number(operation, a_i64, b_i64),
        Form::OrderOfNumberNumber => as_order(promisebook_i64::pb_i64_cmp(a_i64, b_i64)),
        Form::PartialOrderingOfNumberNumber => {
            as_partial_ordering(promisebook_i64::pb_i64_partial_cmp(a_i64, b_i64))
        }
        _ => None,
    }
}

fn number_of_number_number(operation: Operation, x: i64, y: i64) -> Option<Parts> {
    match operation {
        Operation::WrappingAdd => as_number(promisebook_i64::pb_i64_wrapping_add(x, y)),
        Operation::WrappingSub => as_number(promisebook_i64::pb_i64_wrapping_sub(x, y)),
        _ => as_number(promisebook_i64::pb_i64_wrapping_mul(x, y)),
    }
}

fn number_of_number_u32(operation: Operation, x: i64, rhs: u32) -> Option<Parts> {
    match operation {
        Operation::WrappingShl => as_number(promisebook_i64::pb_i64_wrapping_shl(x, rhs)),
        _ => as_number(promisebook_i64::pb_i64_wrapping_shr(x, rhs)),
    }
}

fn checked_of_number_number(operation: Operation, x: i64, y: i64) -> Option<Parts> {
    match operation {
        Operation::CheckedAdd => as_checked(promisebook_i64::pb_i64_checked_add(x, y)),
        Operation::CheckedSub => as_checked(promisebook_i64::pb_i64_checked_sub(x, y)),
        Operation::CheckedMul => as_checked(promisebook_i64::pb_i64_checked_mul(x, y)),
        Operation::CheckedDiv => as_checked(promisebook_i64::pb_i64_checked_div(x, y)),
        Operation::CheckedDivEuclid => as_checked(promisebook_i64::pb_i64_checked_div_euclid(x, y)),
        Operation::CheckedRem => as_checked(promisebook_i64::pb_i64_checked_rem(x, y)),
        _ => as_checked(promisebook_i64::pb_i64_checked_rem_euclid(x, y)),
    }
}

fn checked_of_number_other(operation: Operation, x: i64, y: u64) -> Option<Parts> {
    match operation {
        Operation::CheckedAddUnsigned => {
            as_checked(promisebook_i64::pb_i64_checked_add_unsigned(x, y))
        }
        _ => as_checked(promisebook_i64::pb_i64_checked_sub_unsigned(x, y)),
    }
}

fn test_of_number_number(operation: Operation, x: i64, y: i64) -> Option<Parts> {
    match operation {
        Operation::Eq => as_test(promisebook_i64::pb_i64_eq(x, y)),
        Operation::Ne => as_test(promisebook_i64::pb_i64_ne(x, y)),
        Operation::Lt => as_test(promisebook_i64::pb_i64_lt(x, y)),
        Operation::Le => as_test(promisebook_i64::pb_i64_le(x, y)),
        Operation::Gt => as_test(promisebook_i64::pb_i64_gt(x, y)),
        _ => as_test(promisebook_i64::pb_i64_ge(x, y)),
    }
}

fn as_number(r: i64) -> Option<Parts> {
    numbered::found(r.cast_unsigned())
}

fn as_checked(r: answers::AnswerI64) -> Option<Parts> {
    numbered::told(r.ok, [r.value.cast_unsigned(), 0, 0, 0])
}

fn as_test(r: bool) -> Option<Parts> {
    numbered::found(numbered::bit(r))
}

fn as_order(r: i8) -> Option<Parts> {
    numbered::order(r)
}

fn as_partial_ordering(r: answers::AnswerI8) -> Option<Parts> {
    if r.ok || r.value != 0 {
        numbered::order(r.value)
    } else {
        None
    }
}
