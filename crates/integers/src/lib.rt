// The machine integers of every width under one name for each sign, so that an operation on them is written and proved once. Their operators are the language's
// own: what one may be asked, and what it gives, stands here in whole numbers.
#![tactic(auto)]

mod halves;
mod i16;
mod i32;
mod i64;
mod i8;
mod isize;
mod signed;
mod u16;
mod u32;
mod u64;
mod u8;
mod unsigned;
mod usize;

pub use signed::Signed;
pub use unsigned::Unsigned;
