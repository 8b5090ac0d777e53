// The exports of promisebook_number_bytes, as a static library: each has the clauses of the face's function, which it calls.
#![tactic(auto)]

ghost use Rattle.std.specs.Prelude.{pos};
ghost use Rattle.theory_answers.specs.Answer.{Answers};
ghost use Rattle.theory_lists.specs.Written.{Writes};
ghost use Rattle.theory_digits.specs.Digits.{digits_high};
ghost use Rattle.theory_digits.specs.Number.{number_high};
ghost use Rattle.vstd_number_bytes.specs.Bytes.{spec_to_le_bytes, from_le_bytes};

// ---- 16 bits

#[unsafe(no_mangle)]
pub extern "C" fn pb_u16_from_le_bytes(s: &[u8]) -> answers::AnswerU16
    ensures { Answers result.ok (pos result.value) (from_le_bytes 16 1 s.now) }
{
    promisebook_number_bytes::pb_u16_from_le_bytes(s)
}

// Written into a lent slice at a place, or refused before a byte is written.
#[unsafe(no_mangle)]
pub extern "C" fn pb_u16_to_le_bytes(x: u16, s: &mut [u8], at: usize) -> bool
    ensures { Writes result s.old at (spec_to_le_bytes 2 x) s.new }
{
    promisebook_number_bytes::pb_u16_to_le_bytes(x, s, at)
}

// ---- 16 bits, beyond vstd: highest first

#[unsafe(no_mangle)]
pub extern "C" fn pb_u16_from_be_bytes(s: &[u8]) -> answers::AnswerU16
    ensures { Answers result.ok (pos result.value) (number_high 256 2 s.now) }
{
    promisebook_number_bytes::pb_u16_from_be_bytes(s)
}

#[unsafe(no_mangle)]
pub extern "C" fn pb_u16_to_be_bytes(x: u16, s: &mut [u8], at: usize) -> bool
    ensures { Writes result s.old at (digits_high 256 2 x) s.new }
{
    promisebook_number_bytes::pb_u16_to_be_bytes(x, s, at)
}

// ---- 32 bits

#[unsafe(no_mangle)]
pub extern "C" fn pb_u32_from_le_bytes(s: &[u8]) -> answers::AnswerU32
    ensures { Answers result.ok (pos result.value) (from_le_bytes 32 3 s.now) }
{
    promisebook_number_bytes::pb_u32_from_le_bytes(s)
}

// Written into a lent slice at a place, or refused before a byte is written.
#[unsafe(no_mangle)]
pub extern "C" fn pb_u32_to_le_bytes(x: u32, s: &mut [u8], at: usize) -> bool
    ensures { Writes result s.old at (spec_to_le_bytes 4 x) s.new }
{
    promisebook_number_bytes::pb_u32_to_le_bytes(x, s, at)
}

// ---- 32 bits, beyond vstd: highest first

#[unsafe(no_mangle)]
pub extern "C" fn pb_u32_from_be_bytes(s: &[u8]) -> answers::AnswerU32
    ensures { Answers result.ok (pos result.value) (number_high 256 4 s.now) }
{
    promisebook_number_bytes::pb_u32_from_be_bytes(s)
}

#[unsafe(no_mangle)]
pub extern "C" fn pb_u32_to_be_bytes(x: u32, s: &mut [u8], at: usize) -> bool
    ensures { Writes result s.old at (digits_high 256 4 x) s.new }
{
    promisebook_number_bytes::pb_u32_to_be_bytes(x, s, at)
}

// ---- 64 bits

#[unsafe(no_mangle)]
pub extern "C" fn pb_u64_from_le_bytes(s: &[u8]) -> answers::AnswerU64
    ensures { Answers result.ok (pos result.value) (from_le_bytes 64 7 s.now) }
{
    promisebook_number_bytes::pb_u64_from_le_bytes(s)
}

// Written into a lent slice at a place, or refused before a byte is written.
#[unsafe(no_mangle)]
pub extern "C" fn pb_u64_to_le_bytes(x: u64, s: &mut [u8], at: usize) -> bool
    ensures { Writes result s.old at (spec_to_le_bytes 8 x) s.new }
{
    promisebook_number_bytes::pb_u64_to_le_bytes(x, s, at)
}

// ---- 64 bits, beyond vstd: highest first

#[unsafe(no_mangle)]
pub extern "C" fn pb_u64_from_be_bytes(s: &[u8]) -> answers::AnswerU64
    ensures { Answers result.ok (pos result.value) (number_high 256 8 s.now) }
{
    promisebook_number_bytes::pb_u64_from_be_bytes(s)
}

#[unsafe(no_mangle)]
pub extern "C" fn pb_u64_to_be_bytes(x: u64, s: &mut [u8], at: usize) -> bool
    ensures { Writes result s.old at (digits_high 256 8 x) s.new }
{
    promisebook_number_bytes::pb_u64_to_be_bytes(x, s, at)
}
