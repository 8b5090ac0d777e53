// A question's arguments: bytes first, if there are any, then numbers, then other bytes.
use numbered::{Name, Numbers, Part};
use words::line::Words;

// How many words a question has, its NAME among them.
pub fn words_of(name: Name) -> usize {
    1 + name.operation.takes().len()
}

fn is_bytes(name: Name, place: usize) -> bool {
    matches!(name.takes(place), Some(Part::Bytes))
}

// The question's bytes, into the start of the room: how many. Where it has none, as many as are given with it.
pub fn bytes(name: Name, words: Words<'_>, room: &mut [u8]) -> Option<usize> {
    if is_bytes(name, 0) {
        spelled::hex::read(words.argument(0), room)
    } else {
        Some(name.given())
    }
}

// The other bytes of the question as it spells them, if it has any.
pub fn other<'a>(name: Name, words: Words<'a>) -> Option<&'a [u8]> {
    for place in 1..name.operation.takes().len() {
        if is_bytes(name, place) {
            return Some(words.argument(place));
        }
    }
    None
}

// The numbers of a question, if each is one of its kind.
pub fn numbers(name: Name, words: Words<'_>) -> Option<Numbers> {
    let first = if is_bytes(name, 0) { 1 } else { 0 };
    let mut numbers = [0; 4];
    for (k, number) in numbers.iter_mut().enumerate() {
        *number = number_at(name, words, first + k)?;
    }
    Some(numbers)
}

// The number at a place; 0 where none is taken there.
fn number_at(name: Name, words: Words<'_>, place: usize) -> Option<u64> {
    match name.takes(place) {
        None | Some(Part::Bytes) => Some(0),
        Some(part) => spelled::read(part, words.argument(place)),
    }
}
