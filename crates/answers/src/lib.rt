// An answer that may be none, as C has it: a flag, and beside it the value, which is 0 or false where there is none. C knows no type parameters, so each type
// of value has a struct.
#![tactic(auto)]

ghost use Rattle.std.specs.Prelude.{◌≡◌, false, pos};
ghost use Rattle.theory_answers.specs.Flag.{Flagged};

mod bytes;

pub use bytes::{BytesFirstAndRest, BytesRange, BytesSplit};

// The call keeps `into` a branch until an export is one piece of code, where each way to an answer goes straight to its flag and its value. Without it, or as a
// From behind the library's own `into`, the value is chosen by the flag after both are made.
#[inline(always)]
fn itself<T>(value: T) -> T
    ensures { result ≡ value }
{
    value
}

#[repr(C)]
#[derive(Clone, Copy)]
pub struct AnswerU8 {
    pub ok: bool,
    pub value: u8,
}

impl Into<AnswerU8> for Option<u8> {
    ghost converts = { λ answer result. Flagged result.ok result.value 0 answer };

    #[inline(always)]
    fn into(self) -> AnswerU8 {
        match self {
            Some(value) => itself(AnswerU8 { ok: true, value }),
            None => AnswerU8 {
                ok: false,
                value: 0,
            },
        }
    }
}

#[repr(C)]
#[derive(Clone, Copy)]
pub struct AnswerU16 {
    pub ok: bool,
    pub value: u16,
}

impl Into<AnswerU16> for Option<u16> {
    ghost converts = { λ answer result. Flagged result.ok result.value 0 answer };

    #[inline(always)]
    fn into(self) -> AnswerU16 {
        match self {
            Some(value) => itself(AnswerU16 { ok: true, value }),
            None => AnswerU16 {
                ok: false,
                value: 0,
            },
        }
    }
}

#[repr(C)]
#[derive(Clone, Copy)]
pub struct AnswerU32 {
    pub ok: bool,
    pub value: u32,
}

impl Into<AnswerU32> for Option<u32> {
    ghost converts = { λ answer result. Flagged result.ok result.value 0 answer };

    #[inline(always)]
    fn into(self) -> AnswerU32 {
        match self {
            Some(value) => itself(AnswerU32 { ok: true, value }),
            None => AnswerU32 {
                ok: false,
                value: 0,
            },
        }
    }
}

#[repr(C)]
#[derive(Clone, Copy)]
pub struct AnswerU64 {
    pub ok: bool,
    pub value: u64,
}

impl Into<AnswerU64> for Option<u64> {
    ghost converts = { λ answer result. Flagged result.ok result.value 0 answer };

    #[inline(always)]
    fn into(self) -> AnswerU64 {
        match self {
            Some(value) => itself(AnswerU64 { ok: true, value }),
            None => AnswerU64 {
                ok: false,
                value: 0,
            },
        }
    }
}

#[repr(C)]
#[derive(Clone, Copy)]
pub struct AnswerUsize {
    pub ok: bool,
    pub value: usize,
}

impl Into<AnswerUsize> for Option<usize> {
    ghost converts = { λ answer result. Flagged result.ok result.value 0 answer };

    #[inline(always)]
    fn into(self) -> AnswerUsize {
        match self {
            Some(value) => itself(AnswerUsize { ok: true, value }),
            None => AnswerUsize {
                ok: false,
                value: 0,
            },
        }
    }
}

#[repr(C)]
#[derive(Clone, Copy)]
pub struct AnswerI8 {
    pub ok: bool,
    pub value: i8,
}

impl Into<AnswerI8> for Option<i8> {
    ghost converts = { λ answer result. Flagged result.ok result.value (pos 0) answer };

    #[inline(always)]
    fn into(self) -> AnswerI8 {
        match self {
            Some(value) => itself(AnswerI8 { ok: true, value }),
            None => AnswerI8 {
                ok: false,
                value: 0,
            },
        }
    }
}

#[repr(C)]
#[derive(Clone, Copy)]
pub struct AnswerI16 {
    pub ok: bool,
    pub value: i16,
}

impl Into<AnswerI16> for Option<i16> {
    ghost converts = { λ answer result. Flagged result.ok result.value (pos 0) answer };

    #[inline(always)]
    fn into(self) -> AnswerI16 {
        match self {
            Some(value) => itself(AnswerI16 { ok: true, value }),
            None => AnswerI16 {
                ok: false,
                value: 0,
            },
        }
    }
}

#[repr(C)]
#[derive(Clone, Copy)]
pub struct AnswerI32 {
    pub ok: bool,
    pub value: i32,
}

impl Into<AnswerI32> for Option<i32> {
    ghost converts = { λ answer result. Flagged result.ok result.value (pos 0) answer };

    #[inline(always)]
    fn into(self) -> AnswerI32 {
        match self {
            Some(value) => itself(AnswerI32 { ok: true, value }),
            None => AnswerI32 {
                ok: false,
                value: 0,
            },
        }
    }
}

#[repr(C)]
#[derive(Clone, Copy)]
pub struct AnswerI64 {
    pub ok: bool,
    pub value: i64,
}

impl Into<AnswerI64> for Option<i64> {
    ghost converts = { λ answer result. Flagged result.ok result.value (pos 0) answer };

    #[inline(always)]
    fn into(self) -> AnswerI64 {
        match self {
            Some(value) => itself(AnswerI64 { ok: true, value }),
            None => AnswerI64 {
                ok: false,
                value: 0,
            },
        }
    }
}

#[repr(C)]
#[derive(Clone, Copy)]
pub struct AnswerIsize {
    pub ok: bool,
    pub value: isize,
}

impl Into<AnswerIsize> for Option<isize> {
    ghost converts = { λ answer result. Flagged result.ok result.value (pos 0) answer };

    #[inline(always)]
    fn into(self) -> AnswerIsize {
        match self {
            Some(value) => itself(AnswerIsize { ok: true, value }),
            None => AnswerIsize {
                ok: false,
                value: 0,
            },
        }
    }
}

#[repr(C)]
#[derive(Clone, Copy)]
pub struct AnswerBool {
    pub ok: bool,
    pub value: bool,
}

impl Into<AnswerBool> for Option<bool> {
    ghost converts = { λ answer result. Flagged result.ok result.value false answer };

    #[inline(always)]
    fn into(self) -> AnswerBool {
        match self {
            Some(value) => itself(AnswerBool { ok: true, value }),
            None => AnswerBool {
                ok: false,
                value: false,
            },
        }
    }
}
