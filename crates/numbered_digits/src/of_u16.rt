// The operations of u16 that take or answer bytes, as the faces export them.
use numbered::{Form, Numbers, Operation, Parts};

pub fn run(operation: Operation, s: &mut [u8], n: Numbers) -> Option<Parts> {
    let first = n[0];
    let second = n[1];
    let a_u16 = numbered::low16(first);
    let a = first as usize;
    let b_u16 = numbered::low16(second);
    match operation.form() {
        Form::WritingNumber => writing_number(operation, a_u16, s, 0),
        Form::WritingBytesPlaceNumber => {
            as_place_said_s_value(promisebook_decimal::pb_u16_write_decimal(b_u16, s, a))
        }
        _ => reading(operation, s, n),
    }
}

fn reading(operation: Operation, s: &[u8], n: Numbers) -> Option<Parts> {
    let first = n[0];
    let second = n[1];
    let a = first as usize;
    let b = second as usize;
    match operation.form() {
        Form::ReadingBytes => reading_bytes(operation, s),
        Form::ReadingBytesPlacePlace => {
            as_checked(promisebook_decimal::pb_u16_read_decimal(s, a, b))
        }
        _ => None,
    }
}

fn reading_bytes(operation: Operation, s: &[u8]) -> Option<Parts> {
    match operation {
        Operation::FromLeBytes => as_checked(promisebook_number_bytes::pb_u16_from_le_bytes(s)),
        _ => as_checked(promisebook_number_bytes::pb_u16_from_be_bytes(s)),
    }
}

fn writing_number(operation: Operation, x: u16, s: &mut [u8], at: usize) -> Option<Parts> {
    match operation {
        Operation::ToLeBytes => as_done(promisebook_number_bytes::pb_u16_to_le_bytes(x, s, at)),
        _ => as_done(promisebook_number_bytes::pb_u16_to_be_bytes(x, s, at)),
    }
}

fn as_checked(r: answers::AnswerU16) -> Option<Parts> {
    numbered::told(r.ok, [r.value as u64, 0, 0, 0])
}

fn as_done(r: bool) -> Option<Parts> {
    r.then_some([0; 4])
}

fn as_place_said_s_value(r: answers::AnswerUsize) -> Option<Parts> {
    numbered::told(r.ok, [0, r.value as u64, 0, 0])
}
