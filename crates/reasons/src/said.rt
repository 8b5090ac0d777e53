// How reasons are written.
use numbered::{Kind, Part};
use std::io;
use std::io::Write;

// No more of a word is shown.
const MOST: usize = 60;

pub fn text<W: Write>(out: &mut W, words: &str) -> io::Result<()> {
    out.write_all(words.as_bytes())
}

pub fn begin<W: Write>(out: &mut W) -> io::Result<()> {
    text(out, "ask: ")
}

// A word of the question; of a long one its beginning.
pub fn shown<W: Write>(out: &mut W, word: &[u8]) -> io::Result<()> {
    if word.is_empty() {
        return text(out, "''");
    }
    match word.get(..MOST) {
        Some(beginning) if MOST < word.len() => {
            out.write_all(beginning)?;
            text(out, "..")
        }
        _ => out.write_all(word),
    }
}

// What an argument is of.
pub fn part<W: Write>(out: &mut W, part: Part) -> io::Result<()> {
    match part {
        Part::Number(kind) => kind_of_number(out, kind),
        Part::Truth => text(out, "truth"),
        Part::Order => text(out, "order"),
        Part::Bytes => text(out, "bytes"),
    }
}

fn kind_of_number<W: Write>(out: &mut W, kind: Kind) -> io::Result<()> {
    write!(out, "{kind}")
}

// From the smallest to the largest of a kind.
pub fn range<W: Write>(out: &mut W, part: Part) -> io::Result<()> {
    match part {
        Part::Number(kind) => numbers(out, kind),
        _ => text(out, "true or false\n"),
    }
}

fn numbers<W: Write>(out: &mut W, kind: Kind) -> io::Result<()> {
    if kind.is_signed() {
        let size = kind.smallest();
        let last = size - 1;
        writeln!(out, "-{size} to {last}")
    } else {
        let last = kind.ones();
        writeln!(out, "0 to {last}")
    }
}
