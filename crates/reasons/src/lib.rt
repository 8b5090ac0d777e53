// Why a question has no answer, in lines that `ask` writes on standard error, for a person who asks by arguments. Of a question that has one nothing is said.
// Each function ends at the first write that fails, with its error.
#![tactic(auto)]

mod near;
mod said;
mod takes;

use asked::{arguments, names};
use numbered::{Name, Part};
use std::io;
use std::io::Write;
use words::line::Words;

pub fn tell<W: Write>(out: &mut W, line: &[u8]) -> io::Result<()> {
    if line.is_empty() {
        said::begin(out)?;
        return said::text(
            out,
            "a question is a name and its arguments; --help lists them\n",
        );
    }
    let words = Words::of_question(line);
    match names::read(words.name()) {
        Some(name) => known(out, name, words),
        None => unknown(out, words.name()),
    }
}

pub fn tell_too_long<W: Write>(out: &mut W) -> io::Result<()> {
    said::begin(out)?;
    said::text(out, "a question has at most 65536 bytes\n")
}

fn unknown<W: Write>(out: &mut W, word: &[u8]) -> io::Result<()> {
    said::begin(out)?;
    said::text(out, "there is no ")?;
    said::shown(out, word)?;
    near::tell(out, word)
}

fn known<W: Write>(out: &mut W, name: Name, words: Words<'_>) -> io::Result<()> {
    if words.count != arguments::words_of(name) {
        return takes::tell(out, name);
    }
    for place in 0..name.operation.takes().len() {
        argument(out, name.takes(place), words.argument(place))?;
    }
    Ok(())
}

// Says what is wrong with an argument, if anything is.
fn argument<W: Write>(out: &mut W, taken: Option<Part>, word: &[u8]) -> io::Result<()> {
    match taken {
        None => Ok(()),
        Some(Part::Bytes) => bytes(out, word),
        Some(part) => number(out, part, word),
    }
}

fn number<W: Write>(out: &mut W, part: Part, word: &[u8]) -> io::Result<()> {
    if spelled::read(part, word).is_some() {
        return Ok(());
    }
    said::begin(out)?;
    said::shown(out, word)?;
    said::text(out, " is no ")?;
    said::part(out, part)?;
    said::text(out, ": ")?;
    said::range(out, part)
}

fn bytes<W: Write>(out: &mut W, word: &[u8]) -> io::Result<()> {
    let mut room = [0u8; 32768];
    if spelled::hex::read(word, &mut room).is_some() {
        return Ok(());
    }
    said::begin(out)?;
    said::shown(out, word)?;
    said::text(out, " is no bytes: ")?;
    if word.is_empty() {
        said::text(out, "- is for none\n")
    } else if word.iter().all(is_digit) {
        said::text(out, "each is two digits, and one is missing\n")
    } else {
        said::text(out, "each is two of the digits 0 to 9 and a to f\n")
    }
}

fn is_digit(b: &u8) -> bool {
    matches!(b, b'0'..=b'9' | b'a'..=b'f')
}
