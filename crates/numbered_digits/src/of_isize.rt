// The operations of isize that take or answer bytes, as the faces export them.
use numbered::{Form, Numbers, Operation, Parts};

pub fn run(operation: Operation, s: &mut [u8], n: Numbers) -> Option<Parts> {
    let first = n[0];
    let second = n[1];
    let a = first as usize;
    let b_isize = (second as usize).cast_signed();
    match operation.form() {
        Form::WritingBytesPlaceNumber => {
            as_place_said_s_value(promisebook_decimal::pb_isize_write_decimal(b_isize, s, a))
        }
        _ => reading(operation, s, n),
    }
}

fn reading(operation: Operation, s: &[u8], n: Numbers) -> Option<Parts> {
    let first = n[0];
    let second = n[1];
    let a = first as usize;
    let b = second as usize;
    match operation.form() {
        Form::ReadingBytesPlacePlace => {
            as_checked(promisebook_decimal::pb_isize_read_decimal(s, a, b))
        }
        _ => None,
    }
}

fn as_checked(r: answers::AnswerIsize) -> Option<Parts> {
    numbered::told(r.ok, [r.value.cast_unsigned() as u64, 0, 0, 0])
}

fn as_place_said_s_value(r: answers::AnswerUsize) -> Option<Parts> {
    numbered::told(r.ok, [0, r.value as u64, 0, 0])
}
