// The operations of text, as the faces export them.
use numbered::{Form, Numbers, Operation, Parts};

pub fn run(operation: Operation, s: &mut [u8], n: Numbers) -> Option<Parts> {
    let first = n[0];
    let second = n[1];
    let a = first as usize;
    let b_u32 = numbered::low32(second);
    match operation.form() {
        Form::WritingBytesPlaceU32 => {
            as_place_said_out(promisebook_text::pb_text_write(s, a, b_u32))
        }
        _ => reading(operation, s, n),
    }
}

fn reading(operation: Operation, s: &[u8], n: Numbers) -> Option<Parts> {
    let first = n[0];
    let second = n[1];
    let a = first as usize;
    let b = second as usize;
    let a_u32 = numbered::low32(first);
    match operation.form() {
        Form::ReadingBytes => reading_bytes(operation, s),
        Form::ReadingBytesPlacePlace => reading_bytes_place_place(operation, s, a, b),
        Form::ReadingU32 => reading_u32(operation, a_u32),
        Form::ReadingBytesPlace => reading_bytes_place(operation, s, a),
        _ => None,
    }
}

fn reading_bytes(operation: Operation, s: &[u8]) -> Option<Parts> {
    match operation {
        Operation::TextValid => as_test(promisebook_text::pb_text_valid(s)),
        Operation::TextCount => as_place(promisebook_text::pb_text_count(s)),
        Operation::TextIsAscii => as_test(promisebook_text::pb_text_is_ascii(s)),
        _ => as_usize(promisebook_text::pb_text_valid_up_to(s)),
    }
}

fn reading_bytes_place_place(
    operation: Operation,
    s: &[u8],
    from: usize,
    to: usize,
) -> Option<Parts> {
    match operation {
        Operation::TextReadFirst => as_text_read(promisebook_text::pb_text_read_first(s, from, to)),
        _ => as_text_read(promisebook_text::pb_text_read_last(s, from, to)),
    }
}

fn reading_u32(operation: Operation, c: u32) -> Option<Parts> {
    match operation {
        Operation::TextScalarLen => as_place(promisebook_text::pb_text_scalar_len(c)),
        _ => as_test(promisebook_text::pb_text_is_white_space(c)),
    }
}

fn reading_bytes_place(operation: Operation, s: &[u8], at: usize) -> Option<Parts> {
    match operation {
        Operation::TextIsBoundary => as_verdict(promisebook_text::pb_text_is_boundary(s, at)),
        _ => as_text_split_said_0_middle_end(promisebook_text::pb_text_split_at(s, at)),
    }
}

fn as_test(r: bool) -> Option<Parts> {
    numbered::found(numbered::bit(r))
}

fn as_place(r: answers::AnswerUsize) -> Option<Parts> {
    numbered::told(r.ok, [r.value as u64, 0, 0, 0])
}

fn as_usize(r: usize) -> Option<Parts> {
    numbered::found(r as u64)
}

fn as_text_read(r: text_answers::TextRead) -> Option<Parts> {
    numbered::told(r.ok, [r.value as u64, r.length as u64, 0, 0])
}

fn as_place_said_out(r: answers::AnswerUsize) -> Option<Parts> {
    numbered::told(r.ok || r.value != 0, [0, 0, 0, 0])
}

fn as_verdict(r: answers::AnswerBool) -> Option<Parts> {
    numbered::told(r.ok, [numbered::bit(r.value), 0, 0, 0])
}

fn as_text_split_said_0_middle_end(r: text_answers::TextSplit) -> Option<Parts> {
    numbered::told(r.ok, [0, r.middle as u64, r.end as u64, 0])
}
