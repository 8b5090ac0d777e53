// The operations of usize on numbers alone (crate `numbered`), as the faces export them (written by generate/ from the table of operations).
#![tactic(auto)]

use numbered::{Form, Numbers, Operation, Parts};

// Arguments are cut down to their kind's width.
pub fn run(operation: Operation, n: Numbers) -> Option<Parts> {
    let first = n[0];
    let second = n[1];
    let a = first as usize;
    let b = second as usize;
    let b_isize = (second as usize).cast_signed();
    let b_u32 = numbered::low32(second);
    match operation.form() {
        Form::NumberOfNumberOther => {
            as_number(promisebook_usize::pb_usize_wrapping_add_signed(a, b_isize))
        }
        Form::NumberOfNumberU32 => number_of_number_u32(operation, a, b_u32),
        Form::CheckedOfNumberOther => {
            as_checked(promisebook_usize::pb_usize_checked_add_signed(a, b_isize))
        }
        Form::NumberOfNumber => as_number(promisebook_usize::pb_usize_clone(a)),
        _ => of_common(operation, a, b),
    }
}

// Those that take what most of them take.
fn of_common(operation: Operation, a: usize, b: usize) -> Option<Parts> {
    match operation.form() {
        Form::NumberOfNumberNumber => number_of_number_number(operation, a, b),
        Form::CheckedOfNumberNumber => checked_of_number_number(operation, a, b),
        Form::TestOfNumberNumber => test_of_number_number(operation, a, b),
        Form::OrderOfNumberNumber => as_order(promisebook_usize::pb_usize_cmp(a, b)),
        Form::PartialOrderingOfNumberNumber => {
            as_partial_ordering(promisebook_usize::pb_usize_partial_cmp(a, b))
        }
        _ => None,
    }
}

fn number_of_number_number(operation: Operation, x: usize, y: usize) -> Option<Parts> {
    match operation {
        Operation::WrappingAdd => as_number(promisebook_usize::pb_usize_wrapping_add(x, y)),
        Operation::WrappingSub => as_number(promisebook_usize::pb_usize_wrapping_sub(x, y)),
        Operation::WrappingMul => as_number(promisebook_usize::pb_usize_wrapping_mul(x, y)),
        Operation::SaturatingAdd => as_number(promisebook_usize::pb_usize_saturating_add(x, y)),
        Operation::SaturatingSub => as_number(promisebook_usize::pb_usize_saturating_sub(x, y)),
        _ => as_number(promisebook_usize::pb_usize_saturating_mul(x, y)),
    }
}

fn number_of_number_u32(operation: Operation, x: usize, rhs: u32) -> Option<Parts> {
    match operation {
        Operation::WrappingShl => as_number(promisebook_usize::pb_usize_wrapping_shl(x, rhs)),
        _ => as_number(promisebook_usize::pb_usize_wrapping_shr(x, rhs)),
    }
}

fn checked_of_number_number(operation: Operation, x: usize, y: usize) -> Option<Parts> {
    match operation {
        Operation::CheckedAdd => as_checked(promisebook_usize::pb_usize_checked_add(x, y)),
        Operation::CheckedSub => as_checked(promisebook_usize::pb_usize_checked_sub(x, y)),
        Operation::CheckedMul => as_checked(promisebook_usize::pb_usize_checked_mul(x, y)),
        Operation::CheckedNextMultipleOf => {
            as_checked(promisebook_usize::pb_usize_checked_next_multiple_of(x, y))
        }
        Operation::CheckedDiv => as_checked(promisebook_usize::pb_usize_checked_div(x, y)),
        Operation::CheckedDivEuclid => {
            as_checked(promisebook_usize::pb_usize_checked_div_euclid(x, y))
        }
        Operation::CheckedRem => as_checked(promisebook_usize::pb_usize_checked_rem(x, y)),
        _ => as_checked(promisebook_usize::pb_usize_checked_rem_euclid(x, y)),
    }
}

fn test_of_number_number(operation: Operation, x: usize, y: usize) -> Option<Parts> {
    match operation {
        Operation::IsMultipleOf => as_test(promisebook_usize::pb_usize_is_multiple_of(x, y)),
        Operation::Eq => as_test(promisebook_usize::pb_usize_eq(x, y)),
        Operation::Ne => as_test(promisebook_usize::pb_usize_ne(x, y)),
        Operation::Lt => as_test(promisebook_usize::pb_usize_lt(x, y)),
        Operation::Le => as_test(promisebook_usize::pb_usize_le(x, y)),
        Operation::Gt => as_test(promisebook_usize::pb_usize_gt(x, y)),
        _ => as_test(promisebook_usize::pb_usize_ge(x, y)),
    }
}

fn as_number(r: usize) -> Option<Parts> {
    numbered::found(r as u64)
}

fn as_checked(r: answers::AnswerUsize) -> Option<Parts> {
    numbered::told(r.ok, [r.value as u64, 0, 0, 0])
}

fn as_test(r: bool) -> Option<Parts> {
    numbered::found(numbered::bit(r))
}

fn as_order(r: i8) -> Option<Parts> {
    numbered::order(r)
}

fn as_partial_ordering(r: answers::AnswerI8) -> Option<Parts> {
    if r.ok || r.value != 0 {
        numbered::order(r.value)
    } else {
        None
    }
}
