// The operations of slices of bytes, as the faces export them.
use numbered::{Form, Numbers, Operation, Parts};

pub fn run(operation: Operation, s: &mut [u8], other: &[u8], n: Numbers) -> Option<Parts> {
    let first = n[0];
    let second = n[1];
    let third = n[2];
    let fourth = n[3];
    let a = first as usize;
    let b = second as usize;
    let c = third as usize;
    let d_u8 = numbered::low8(fourth);
    match operation.form() {
        Form::WritingBytesPlacePlacePlaceByte => {
            as_done(promisebook_slices::pb_bytes_set(s, a, b, c, d_u8))
        }
        Form::WritingBytesPlacePlace => as_done(promisebook_slices::pb_bytes_reverse(s, a, b)),
        Form::WritingBytesPlacePlaceBytes => {
            as_done(promisebook_slices::pb_bytes_copy_from(s, a, b, other))
        }
        Form::WritingBytesPlacePlacePlace => {
            as_done(promisebook_slices::pb_bytes_copy_within(s, a, b, c))
        }
        _ => reading(operation, s, other, n),
    }
}

fn reading(operation: Operation, s: &[u8], other: &[u8], n: Numbers) -> Option<Parts> {
    let first = n[0];
    let second = n[1];
    let third = n[2];
    let fourth = n[3];
    let a = first as usize;
    let b = second as usize;
    let c = third as usize;
    let d = fourth as usize;
    let c_u8 = numbered::low8(third);
    match operation.form() {
        Form::ReadingBytesPlacePlace => reading_bytes_place_place(operation, s, a, b),
        Form::ReadingBytesPlacePlacePlace => reading_bytes_place_place_place(operation, s, a, b, c),
        Form::ReadingBytesPlacePlacePlacePlace => {
            as_bytes_range(promisebook_slices::pb_bytes_sub_range(s, a, b, c, d))
        }
        Form::ReadingBytesPlacePlaceBytes => {
            reading_bytes_place_place_bytes(operation, s, a, b, other)
        }
        Form::ReadingBytesPlacePlaceByte => {
            as_verdict(promisebook_slices::pb_bytes_contains(s, a, b, c_u8))
        }
        _ => None,
    }
}

fn reading_bytes_place_place(
    operation: Operation,
    s: &[u8],
    from: usize,
    to: usize,
) -> Option<Parts> {
    match operation {
        Operation::BytesLen => as_place(promisebook_slices::pb_bytes_len(s, from, to)),
        Operation::BytesIsEmpty => as_verdict(promisebook_slices::pb_bytes_is_empty(s, from, to)),
        Operation::BytesFirst => as_byte(promisebook_slices::pb_bytes_first(s, from, to)),
        Operation::BytesLast => as_byte(promisebook_slices::pb_bytes_last(s, from, to)),
        _ => as_bytes_first_and_rest(promisebook_slices::pb_bytes_split_first(s, from, to)),
    }
}

fn reading_bytes_place_place_place(
    operation: Operation,
    s: &[u8],
    from: usize,
    to: usize,
    i: usize,
) -> Option<Parts> {
    match operation {
        Operation::BytesGet => as_byte(promisebook_slices::pb_bytes_get(s, from, to, i)),
        Operation::BytesSplitAt => {
            as_bytes_split(promisebook_slices::pb_bytes_split_at(s, from, to, i))
        }
        _ => as_bytes_range(promisebook_slices::pb_bytes_next_piece(s, from, to, i)),
    }
}

fn reading_bytes_place_place_bytes(
    operation: Operation,
    s: &[u8],
    from: usize,
    to: usize,
    needle: &[u8],
) -> Option<Parts> {
    match operation {
        Operation::BytesStartsWith => {
            as_verdict(promisebook_slices::pb_bytes_starts_with(s, from, to, needle))
        }
        Operation::BytesEndsWith => {
            as_verdict(promisebook_slices::pb_bytes_ends_with(s, from, to, needle))
        }
        _ => as_verdict(promisebook_slices::pb_bytes_equal(s, from, to, needle)),
    }
}

fn as_place(r: answers::AnswerUsize) -> Option<Parts> {
    numbered::told(r.ok, [r.value as u64, 0, 0, 0])
}

fn as_verdict(r: answers::AnswerBool) -> Option<Parts> {
    numbered::told(r.ok, [numbered::bit(r.value), 0, 0, 0])
}

fn as_byte(r: answers::AnswerU8) -> Option<Parts> {
    numbered::told(r.ok, [r.value as u64, 0, 0, 0])
}

fn as_bytes_first_and_rest(r: answers::BytesFirstAndRest) -> Option<Parts> {
    numbered::told(r.ok, [r.first as u64, r.from as u64, r.to as u64, 0])
}

fn as_bytes_split(r: answers::BytesSplit) -> Option<Parts> {
    numbered::told(r.ok, [r.from as u64, r.middle as u64, r.to as u64, 0])
}

fn as_bytes_range(r: answers::BytesRange) -> Option<Parts> {
    numbered::told(r.ok, [r.from as u64, r.to as u64, 0, 0])
}

fn as_done(r: bool) -> Option<Parts> {
    r.then_some([0; 4])
}
