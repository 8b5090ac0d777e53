// Answers: what is said, and how it is written into `out` from a place on. Each writer answers the place behind what it wrote. Where there is no room it writes
// nothing: whoever calls it keeps room for an answer.
use numbered::{Name, Part, Parts};
use spelled::words;

// What a question is answered: the operation, how many bytes the room has that was lent, and the parts.
#[derive(Clone, Copy)]
pub enum Said {
    Unknown,
    Malformed,
    Refused,
    Found(Name, usize, Parts),
}

pub fn write(said: Said, bytes: &[u8], out: &mut [u8], at: usize) -> usize {
    match said {
        Said::Unknown => words(out, at, "unknown"),
        Said::Malformed => malformed(out, at),
        Said::Refused => words(out, at, "refused"),
        Said::Found(name, length, parts) => match bytes.get(..length) {
            Some(s) => found(name, s, parts, out, at),
            None => at,
        },
    }
}

pub fn malformed(out: &mut [u8], at: usize) -> usize {
    words(out, at, "malformed")
}

pub fn line_end(out: &mut [u8], at: usize) -> usize {
    words(out, at, "\n")
}

// The parts of an answer, with single spaces between.
fn found(name: Name, s: &[u8], parts: Parts, out: &mut [u8], at: usize) -> usize {
    let mut behind = at;
    for (place, bits) in parts.iter().enumerate() {
        if let Some(part) = name.says(place) {
            if 0 < place {
                behind = words(out, behind, " ");
            }
            behind = written(part, s, *bits, out, behind);
        }
    }
    behind
}

fn written(part: Part, s: &[u8], bits: u64, out: &mut [u8], at: usize) -> usize {
    match part {
        Part::Bytes => spelled::hex::write(out, at, s),
        _ => spelled::write(part, out, at, bits),
    }
}
