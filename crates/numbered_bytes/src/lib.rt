// The operations on slices of bytes and on text (crate `numbered`); the modules of_* hold those of each (written by generate/ from the table of operations).
#![tactic(auto)]

mod of_bytes;
mod of_text;

use numbered::{Group, Name, Numbers, Parts};

// `s` has the bytes of the question, and then those of the answer; `other` has the question's second bytes. Refused where there is no such operation.
pub fn run(name: Name, s: &mut [u8], other: &[u8], n: Numbers) -> Option<Parts> {
    match name.group {
        Group::Bytes => of_bytes::run(name.operation, s, other, n),
        Group::Text => of_text::run(name.operation, s, n),
        Group::Integers(_) => None,
    }
}
