// What an operation takes, as `ask --help` names it and by its kinds (written by generate/ from the table of operations).
use crate::said;
use numbered::{Name, Operation};
use std::io;
use std::io::Write;

// The arguments of an operation.
fn shown(operation: Operation) -> &'static str {
    match operation {
        Operation::WrappingAdd
        | Operation::WrappingAddSigned
        | Operation::WrappingAddUnsigned
        | Operation::WrappingSub
        | Operation::WrappingMul
        | Operation::CheckedAdd
        | Operation::CheckedAddSigned
        | Operation::CheckedAddUnsigned
        | Operation::CheckedSub
        | Operation::CheckedSubUnsigned
        | Operation::CheckedMul
        | Operation::CheckedNextMultipleOf
        | Operation::CheckedDiv
        | Operation::CheckedDivEuclid
        | Operation::CheckedRem
        | Operation::CheckedRemEuclid
        | Operation::SaturatingAdd
        | Operation::SaturatingSub
        | Operation::SaturatingMul
        | Operation::IsMultipleOf
        | Operation::Eq
        | Operation::Ne
        | Operation::Lt
        | Operation::Le
        | Operation::Gt
        | Operation::Ge
        | Operation::Cmp
        | Operation::Compare
        | Operation::PartialCmp => "x y",
        Operation::WrappingShl | Operation::WrappingShr => "x d",
        Operation::Clone
        | Operation::LeadingZeros
        | Operation::LeadingOnes
        | Operation::TrailingZeros
        | Operation::TrailingOnes
        | Operation::ToLeBytes
        | Operation::ToBeBytes => "x",
        Operation::FromLeBytes
        | Operation::FromBeBytes
        | Operation::TextValid
        | Operation::TextCount
        | Operation::TextIsAscii
        | Operation::TextValidUpTo => "b",
        Operation::BytesLen
        | Operation::BytesIsEmpty
        | Operation::BytesFirst
        | Operation::BytesLast
        | Operation::BytesSplitFirst
        | Operation::BytesReverse
        | Operation::TextReadFirst
        | Operation::TextReadLast
        | Operation::ReadDecimal => "b f t",
        Operation::BytesGet => "b f t i",
        Operation::BytesSubRange => "b f t a e",
        Operation::BytesSplitAt => "b f t m",
        Operation::BytesNextPiece => "b f t n",
        Operation::BytesStartsWith
        | Operation::BytesEndsWith
        | Operation::BytesEqual
        | Operation::BytesCopyFrom => "b f t other",
        Operation::BytesContains => "b f t v",
        Operation::BytesSet => "b f t i v",
        Operation::BytesCopyWithin => "b f t at",
        Operation::TextScalarLen | Operation::TextIsWhiteSpace => "c",
        Operation::TextWrite => "b at c",
        Operation::TextIsBoundary | Operation::TextSplitAt => "b i",
        Operation::WriteDecimal => "b at x",
    }
}

// `u8.wrapping_shl takes x d: u8 u32`
pub fn tell<W: Write>(out: &mut W, name: Name) -> io::Result<()> {
    let names = shown(name.operation);
    said::begin(out)?;
    write!(out, "{name} takes {names}:")?;
    for place in 0..name.operation.takes().len() {
        if let Some(part) = name.takes(place) {
            said::text(out, " ")?;
            said::part(out, part)?;
        }
    }
    said::text(out, "\n")
}
