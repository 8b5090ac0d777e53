// The operations of integers that take or answer bytes (crate `numbered`): a number's bytes, and decimal text; the modules of_* hold those of each kind (written
// by generate/ from the table of operations).
#![tactic(auto)]

mod of_i16;
mod of_i32;
mod of_i64;
mod of_i8;
mod of_isize;
mod of_u16;
mod of_u32;
mod of_u64;
mod of_u8;
mod of_usize;

use numbered::{Kind, Numbers, Operation, Parts};

// `s` has the bytes of the question, or room where it has none; it then has those of the answer. Refused where the kind does not have the operation.
pub fn run(kind: Kind, operation: Operation, s: &mut [u8], n: Numbers) -> Option<Parts> {
    match kind {
        Kind::U8 => of_u8::run(operation, s, n),
        Kind::U16 => of_u16::run(operation, s, n),
        Kind::U32 => of_u32::run(operation, s, n),
        Kind::U64 => of_u64::run(operation, s, n),
        Kind::Usize => of_usize::run(operation, s, n),
        Kind::I8 => of_i8::run(operation, s, n),
        Kind::I16 => of_i16::run(operation, s, n),
        Kind::I32 => of_i32::run(operation, s, n),
        Kind::I64 => of_i64::run(operation, s, n),
        Kind::Isize => of_isize::run(operation, s, n),
    }
}
