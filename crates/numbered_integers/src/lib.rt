// The operations of integers on numbers alone (crate `numbered`), at every kind (written by generate/).
#![tactic(auto)]

use numbered::{Kind, Numbers, Operation, Parts};

// The library's answer.
pub fn run(kind: Kind, operation: Operation, n: Numbers) -> Option<Parts> {
    match kind {
        Kind::U8 => numbered_u8::run(operation, n),
        Kind::U16 => numbered_u16::run(operation, n),
        Kind::U32 => numbered_u32::run(operation, n),
        Kind::U64 => numbered_u64::run(operation, n),
        Kind::Usize => numbered_usize::run(operation, n),
        Kind::I8 => numbered_i8::run(operation, n),
        Kind::I16 => numbered_i16::run(operation, n),
        Kind::I32 => numbered_i32::run(operation, n),
        Kind::I64 => numbered_i64::run(operation, n),
        Kind::Isize => numbered_isize::run(operation, n),
    }
}
