// How the programs write an operation, a number and an answer. Each function ends at the first write that fails, with its error.
#![tactic(auto)]

use numbered::{Kind, Name, Part, Parts};
use std::io;
use std::io::Write;

pub fn text<W: Write>(out: &mut W, words: &str) -> io::Result<()> {
    out.write_all(words.as_bytes())
}

// The number of a kind that has these bits.
pub fn number<W: Write>(out: &mut W, kind: Kind, bits: u64) -> io::Result<()> {
    if kind.is_signed() && kind.smallest() <= bits {
        let size = kind.minus(bits);
        write!(out, "-{size}")
    } else {
        write!(out, "{bits}")
    }
}

pub fn answer<W: Write>(out: &mut W, name: Name, answer: Option<Parts>) -> io::Result<()> {
    match answer {
        Some(parts) => found(out, name, parts),
        None => text(out, "refused"),
    }
}

// The parts, with single spaces between.
fn found<W: Write>(out: &mut W, name: Name, parts: Parts) -> io::Result<()> {
    for (place, bits) in parts.iter().enumerate() {
        if let Some(part) = name.says(place) {
            if 0 < place {
                text(out, " ")?;
            }
            value(out, part, *bits)?;
        }
    }
    Ok(())
}

// An argument, or a part of an answer. Of bytes nothing is shown.
pub fn value<W: Write>(out: &mut W, part: Part, bits: u64) -> io::Result<()> {
    match part {
        Part::Number(kind) => number(out, kind, bits),
        Part::Truth => text(out, if bits == 0 { "false" } else { "true" }),
        Part::Order => order(out, bits),
        Part::Bytes => Ok(()),
    }
}

fn order<W: Write>(out: &mut W, bits: u64) -> io::Result<()> {
    match bits {
        numbered::LESS => text(out, "less"),
        numbered::EQUAL => text(out, "equal"),
        _ => text(out, "greater"),
    }
}
