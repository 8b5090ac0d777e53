// Family A, the integers: both tables, and the rules in words beside them.
use numbered::{Kind, Name, Operation};
use std::io;
use std::io::Write;

pub fn lines<W: Write>(out: &mut W) -> io::Result<()> {
    show::text(out, "A. integers: the table of 8 bits\n")?;
    unsigned_table(out)?;
    signed_table(out)?;
    show::text(out, "A. integers: the rules in words, 8 bits\n")?;
    unsigned_fits(out)?;
    unsigned_refusals(out)?;
    multiples(out)?;
    signed_fits(out)?;
    signed_refusals(out)?;
    comparisons(out)?;
    show::text(
        out,
        "A. integers: divisions, multiples of 0 and shift distances, every width\n",
    )?;
    every_width(out)
}

// `u8.wrapping_add 200 100 = 44`
fn line<W: Write>(out: &mut W, kind: Kind, operation: Operation, a: u64, b: u64) -> io::Result<()> {
    let name = Name::of(kind, operation);
    let answer = numbered_integers::run(kind, operation, [a, b, 0, 0]);
    write!(out, "{name} ")?;
    show::number(out, kind, a)?;
    show::text(out, " ")?;
    if let Some(part) = name.takes(1) {
        show::value(out, part, b)?;
    }
    show::text(out, " = ")?;
    show::answer(out, name, answer)?;
    show::text(out, "\n")
}

fn minus(n: u64) -> u64 {
    Kind::I8.minus(n)
}

// ---- 8 bits: the table

fn unsigned_table<W: Write>(out: &mut W) -> io::Result<()> {
    line(out, Kind::U8, Operation::WrappingAdd, 200, 100)?;
    line(out, Kind::U8, Operation::WrappingSub, 3, 5)?;
    line(out, Kind::U8, Operation::WrappingMul, 16, 17)?;
    line(out, Kind::U8, Operation::WrappingShl, 1, 9)?;
    line(out, Kind::U8, Operation::WrappingShr, 128, 15)?;
    line(out, Kind::U8, Operation::CheckedNextMultipleOf, 250, 7)?;
    line(out, Kind::U8, Operation::CheckedNextMultipleOf, 250, 16)?;
    line(out, Kind::U8, Operation::CheckedNextMultipleOf, 255, 2)
}

fn signed_table<W: Write>(out: &mut W) -> io::Result<()> {
    line(out, Kind::I8, Operation::WrappingAdd, 100, 100)?;
    line(out, Kind::I8, Operation::WrappingSub, minus(128), 1)?;
    line(out, Kind::I8, Operation::WrappingMul, minus(128), minus(1))?;
    line(
        out,
        Kind::I8,
        Operation::WrappingAddUnsigned,
        minus(100),
        200,
    )
}

// ---- 8 bits: the rules in words, at the table's arguments and beside them

fn unsigned_fits<W: Write>(out: &mut W) -> io::Result<()> {
    line(out, Kind::U8, Operation::WrappingAddSigned, 3, minus(5))?;
    line(out, Kind::U8, Operation::CheckedAdd, 100, 100)?;
    line(out, Kind::U8, Operation::CheckedAddSigned, 200, minus(100))?;
    line(out, Kind::U8, Operation::CheckedSub, 5, 3)?;
    line(out, Kind::U8, Operation::CheckedMul, 15, 17)?;
    line(out, Kind::U8, Operation::SaturatingAdd, 200, 100)?;
    line(out, Kind::U8, Operation::SaturatingSub, 3, 5)?;
    line(out, Kind::U8, Operation::SaturatingMul, 16, 17)
}

fn unsigned_refusals<W: Write>(out: &mut W) -> io::Result<()> {
    line(out, Kind::U8, Operation::CheckedAdd, 200, 100)?;
    line(out, Kind::U8, Operation::CheckedAddSigned, 200, 100)?;
    line(out, Kind::U8, Operation::CheckedAddSigned, 3, minus(5))?;
    line(out, Kind::U8, Operation::CheckedSub, 3, 5)?;
    line(out, Kind::U8, Operation::CheckedMul, 16, 17)
}

fn multiples<W: Write>(out: &mut W) -> io::Result<()> {
    line(out, Kind::U8, Operation::CheckedNextMultipleOf, 0, 7)?;
    line(out, Kind::U8, Operation::CheckedNextMultipleOf, 252, 7)?;
    line(out, Kind::U8, Operation::IsMultipleOf, 252, 7)?;
    line(out, Kind::U8, Operation::IsMultipleOf, 250, 7)?;
    line(out, Kind::U8, Operation::IsMultipleOf, 0, 7)
}

fn signed_fits<W: Write>(out: &mut W) -> io::Result<()> {
    line(out, Kind::I8, Operation::CheckedAdd, minus(100), 100)?;
    line(
        out,
        Kind::I8,
        Operation::CheckedAddUnsigned,
        minus(100),
        200,
    )?;
    line(out, Kind::I8, Operation::CheckedSub, minus(127), 1)?;
    line(out, Kind::I8, Operation::CheckedSubUnsigned, 100, 200)?;
    line(out, Kind::I8, Operation::CheckedMul, minus(127), minus(1))?;
    line(out, Kind::I8, Operation::WrappingShl, 1, 7)?;
    line(out, Kind::I8, Operation::WrappingShr, minus(128), 15)
}

fn signed_refusals<W: Write>(out: &mut W) -> io::Result<()> {
    line(out, Kind::I8, Operation::CheckedAdd, 100, 100)?;
    line(out, Kind::I8, Operation::CheckedAddUnsigned, 100, 200)?;
    line(out, Kind::I8, Operation::CheckedSub, minus(128), 1)?;
    line(
        out,
        Kind::I8,
        Operation::CheckedSubUnsigned,
        minus(100),
        200,
    )?;
    line(out, Kind::I8, Operation::CheckedMul, minus(128), minus(1))
}

fn comparisons<W: Write>(out: &mut W) -> io::Result<()> {
    line(out, Kind::U8, Operation::Compare, 3, 5)?;
    line(out, Kind::U8, Operation::Compare, 5, 5)?;
    line(out, Kind::U8, Operation::Compare, 200, 100)?;
    line(out, Kind::I8, Operation::Compare, minus(128), 127)?;
    line(out, Kind::I8, Operation::Compare, minus(1), minus(1))?;
    line(out, Kind::I8, Operation::Compare, 1, minus(1))
}

// ---- every width

fn every_width<W: Write>(out: &mut W) -> io::Result<()> {
    for kind in Kind::ALL {
        at_width(out, kind)?;
    }
    Ok(())
}

fn at_width<W: Write>(out: &mut W, kind: Kind) -> io::Result<()> {
    if kind.is_signed() {
        signed_divisions(out, kind)?;
    } else {
        division(out, kind, 7, 3)?;
        by_zero(out, kind)?;
    }
    division(out, kind, 7, 0)?;
    distances(out, kind)
}

fn division<W: Write>(out: &mut W, kind: Kind, a: u64, b: u64) -> io::Result<()> {
    line(out, kind, Operation::CheckedDiv, a, b)?;
    line(out, kind, Operation::CheckedRem, a, b)?;
    line(out, kind, Operation::CheckedDivEuclid, a, b)?;
    line(out, kind, Operation::CheckedRemEuclid, a, b)
}

// The division table. The smallest value by -1 has no quotient at any width, and so no remainder.
fn signed_divisions<W: Write>(out: &mut W, kind: Kind) -> io::Result<()> {
    division(out, kind, 7, 3)?;
    division(out, kind, kind.minus(7), 3)?;
    division(out, kind, 7, kind.minus(3))?;
    division(out, kind, kind.minus(7), kind.minus(3))?;
    division(out, kind, kind.smallest(), kind.minus(1))
}

// Only 0 is a multiple of 0, and there is no next one.
fn by_zero<W: Write>(out: &mut W, kind: Kind) -> io::Result<()> {
    line(out, kind, Operation::IsMultipleOf, 0, 0)?;
    line(out, kind, Operation::IsMultipleOf, 7, 0)?;
    line(out, kind, Operation::CheckedNextMultipleOf, 0, 0)?;
    line(out, kind, Operation::CheckedNextMultipleOf, 7, 0)
}

// A distance counts modulo the width.
fn distances<W: Write>(out: &mut W, kind: Kind) -> io::Result<()> {
    let width = kind.width();
    line(out, kind, Operation::WrappingShl, 1, width)?;
    line(out, kind, Operation::WrappingShl, 1, width + 1)?;
    line(out, kind, Operation::WrappingShr, 2, width)?;
    line(out, kind, Operation::WrappingShr, 2, width + 1)
}
