// Families B and C, zeros and ones and the bytes of a number: one line for each row of the tables.
use answers::AnswerU64;
use std::io;
use std::io::Write;

// x, and its trailing zeros, leading zeros, trailing ones and leading ones.
fn zeros_and_ones<W: Write>(out: &mut W, x: u8) -> io::Result<()> {
    let trailing_zeros = zeros::trailing_zeros(x);
    let leading_zeros = zeros::leading_zeros(x);
    let trailing_ones = zeros::trailing_ones(x);
    let leading_ones = zeros::leading_ones(x);
    writeln!(
        out,
        "{x:02x} {trailing_zeros} {leading_zeros} {trailing_ones} {leading_ones}"
    )
}

fn byte<W: Write>(out: &mut W, x: u8) -> io::Result<()> {
    write!(out, " {x:02x}")
}

fn bytes<W: Write>(out: &mut W, s: &[u8]) -> io::Result<()> {
    for x in s {
        byte(out, *x)?;
    }
    show::text(out, "\n")
}

// A refusal is shown with the value that C reads of it.
fn read<W: Write>(out: &mut W, answer: Option<u64>) -> io::Result<()> {
    let answer: AnswerU64 = answer.into();
    let value = answer.value;
    if answer.ok {
        writeln!(out, " 0x{value:016x}")
    } else {
        writeln!(out, " refused, {value}")
    }
}

const X: u64 = 0x0102030405060708;

fn lines_of_zeros<W: Write>(out: &mut W) -> io::Result<()> {
    show::text(
        out,
        "B. zeros and ones, 8 bits: trailing zeros, leading zeros, trailing ones, leading ones\n",
    )?;
    zeros_and_ones(out, 0x00)?;
    zeros_and_ones(out, 0x01)?;
    zeros_and_ones(out, 0x80)?;
    zeros_and_ones(out, 0xff)?;
    zeros_and_ones(out, 0x50)?;
    zeros_and_ones(out, 0xf7)
}

fn lines_of_bytes<W: Write>(out: &mut W) -> io::Result<()> {
    show::text(out, "C. the bytes of 0x0102030405060708\n")?;
    let low: [u8; 8] = number_bytes::to_le_bytes(X);
    let high: [u8; 8] = number_bytes::to_be_bytes(X);
    show::text(out, "lowest first:")?;
    bytes(out, &low)?;
    show::text(out, "highest first:")?;
    bytes(out, &high)
}

fn lines_of_numbers<W: Write>(out: &mut W) -> io::Result<()> {
    show::text(out, "and back\n")?;
    let low: [u8; 8] = number_bytes::to_le_bytes(X);
    let high: [u8; 8] = number_bytes::to_be_bytes(X);
    show::text(out, "lowest first:")?;
    read(out, number_bytes::from_le_bytes(&low))?;
    show::text(out, "highest first:")?;
    read(out, number_bytes::from_be_bytes(&high))
}

fn lines_of_wrong_lengths<W: Write>(out: &mut W) -> io::Result<()> {
    show::text(out, "seven bytes, lowest first:")?;
    read(
        out,
        number_bytes::from_le_bytes(b"\x08\x07\x06\x05\x04\x03\x02"),
    )?;
    show::text(out, "nine bytes, highest first:")?;
    read(
        out,
        number_bytes::from_be_bytes(b"\x01\x02\x03\x04\x05\x06\x07\x08\x09"),
    )
}

pub fn lines<W: Write>(out: &mut W) -> io::Result<()> {
    lines_of_zeros(out)?;
    lines_of_bytes(out)?;
    lines_of_numbers(out)?;
    lines_of_wrong_lengths(out)
}
