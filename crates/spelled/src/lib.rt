// How questions and answers spell what operations take and answer: numbers of each kind by the functions that its face exports (written by generate/), bytes,
// and the words for a truth and a comparison. Each writer answers the place behind what it wrote. Where there is no room it writes nothing.
#![tactic(auto)]

pub mod hex;
mod of_i16;
mod of_i32;
mod of_i64;
mod of_i8;
mod of_isize;
mod of_u16;
mod of_u32;
mod of_u64;
mod of_u8;
mod of_usize;

use numbered::{Kind, Part};

// ---- reading

// The bits of what s spells; refused where it spells nothing of the kind, and of bytes, which `hex` reads.
pub fn read(part: Part, s: &[u8]) -> Option<u64> {
    match part {
        Part::Number(kind) => number(kind, s),
        Part::Truth => truth(s),
        Part::Order | Part::Bytes => None,
    }
}

fn number(kind: Kind, s: &[u8]) -> Option<u64> {
    match kind {
        Kind::U8 => of_u8::read(s),
        Kind::U16 => of_u16::read(s),
        Kind::U32 => of_u32::read(s),
        Kind::U64 => of_u64::read(s),
        Kind::Usize => of_usize::read(s),
        Kind::I8 => of_i8::read(s),
        Kind::I16 => of_i16::read(s),
        Kind::I32 => of_i32::read(s),
        Kind::I64 => of_i64::read(s),
        Kind::Isize => of_isize::read(s),
    }
}

fn truth(s: &[u8]) -> Option<u64> {
    match s {
        b"true" => Some(1),
        b"false" => Some(0),
        _ => None,
    }
}

// ---- writing

// A part that is no bytes, by its bits.
pub fn write(part: Part, out: &mut [u8], at: usize, bits: u64) -> usize {
    match part {
        Part::Number(kind) => {
            let end = out.len();
            behind(at, end, write_number(kind, out, at, bits))
        }
        Part::Truth => words(out, at, said_of_truth(bits)),
        Part::Order => words(out, at, said_of_order(bits)),
        Part::Bytes => at,
    }
}

// The place behind so many bytes.
fn behind(at: usize, end: usize, n: usize) -> usize {
    if n <= end && at <= end - n {
        at + n
    } else {
        at
    }
}

fn write_number(kind: Kind, out: &mut [u8], at: usize, bits: u64) -> usize {
    match kind {
        Kind::U8 => of_u8::write(out, at, bits),
        Kind::U16 => of_u16::write(out, at, bits),
        Kind::U32 => of_u32::write(out, at, bits),
        Kind::U64 => of_u64::write(out, at, bits),
        Kind::Usize => of_usize::write(out, at, bits),
        Kind::I8 => of_i8::write(out, at, bits),
        Kind::I16 => of_i16::write(out, at, bits),
        Kind::I32 => of_i32::write(out, at, bits),
        Kind::I64 => of_i64::write(out, at, bits),
        Kind::Isize => of_isize::write(out, at, bits),
    }
}

fn said_of_truth(bit: u64) -> &'static str {
    if bit == 0 { "false" } else { "true" }
}

fn said_of_order(order: u64) -> &'static str {
    match order {
        numbered::LESS => "less",
        numbered::EQUAL => "equal",
        _ => "greater",
    }
}

pub fn words(out: &mut [u8], at: usize, said: &str) -> usize {
    bytes(out, at, said.as_bytes())
}

pub fn bytes(out: &mut [u8], at: usize, s: &[u8]) -> usize {
    if out.len() < s.len() || out.len() - s.len() < at {
        return at;
    }
    let end = at + s.len();
    out[at..end].copy_from_slice(s);
    end
}
