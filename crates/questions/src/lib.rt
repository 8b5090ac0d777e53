// Questions about the library's operations, each a line, and their answers (docs/ASK.md has the protocol). `asked` says what a line asks; the tables of
// `numbered` say what each operation answers.
#![tactic(auto)]

pub mod replies;

use asked::{arguments, names};
use numbered::{Group, Name, Numbers};
use replies::Said;
use words::line::Words;

// Room for the bytes that a line spells, two digits each.
fn half_of_line() -> [u8; 32768] {
    [0; 32768]
}

// Writes the answer from a place on, without a line's end, and answers the place behind it.
pub fn answer(line: &[u8], out: &mut [u8], at: usize) -> usize {
    let mut bytes = half_of_line();
    let said = said_of(line, &mut bytes);
    replies::write(said, &bytes, out, at)
}

// `bytes` is room for the bytes of the question, and has those of the answer, if it is bytes.
fn said_of(line: &[u8], bytes: &mut [u8]) -> Said {
    if line.is_empty() {
        return Said::Malformed;
    }
    let words = Words::of_question(line);
    match names::read(words.name()) {
        None => Said::Unknown,
        Some(name) if words.count == arguments::words_of(name) => {
            asked(name, words, bytes).unwrap_or(Said::Malformed)
        }
        Some(_) => Said::Malformed,
    }
}

// None where the arguments are not those that the name takes.
fn asked(name: Name, words: Words<'_>, bytes: &mut [u8]) -> Option<Said> {
    let numbers = arguments::numbers(name, words)?;
    let length = arguments::bytes(name, words, bytes)?;
    let s = bytes.get_mut(..length)?;
    match arguments::other(name, words) {
        Some(word) => with_other(name, word, s, numbers),
        None => Some(run(name, s, b"", numbers)),
    }
}

fn with_other(name: Name, word: &[u8], s: &mut [u8], n: Numbers) -> Option<Said> {
    let mut room = half_of_line();
    let length = spelled::hex::read(word, &mut room)?;
    Some(run(name, s, room.get(..length)?, n))
}

// `s` has the bytes of the question, or room where it has none.
fn run(name: Name, s: &mut [u8], other: &[u8], n: Numbers) -> Said {
    let length = s.len();
    let answer = match name.group {
        Group::Integers(kind) if name.operation.is_on_numbers() => {
            numbered_integers::run(kind, name.operation, n)
        }
        Group::Integers(kind) => numbered_digits::run(kind, name.operation, s, n),
        _ => numbered_bytes::run(name, s, other, n),
    };
    match answer {
        Some(parts) => Said::Found(name, length, parts),
        None => Said::Refused,
    }
}
