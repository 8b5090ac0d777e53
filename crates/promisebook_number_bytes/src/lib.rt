// A number's bytes. Lowest first, what vstd promises, kept: each function's contract is vstd's shifts and masks (vstd_number_bytes, specs/Bytes.antt), and
// its body a call of ours. Highest first, of which vstd promises nothing, the contracts are those of the operations themselves.
#![tactic(auto)]

ghost use Rattle.std.specs.Prelude.{pos};
ghost use Rattle.theory_answers.specs.Answer.{Answers};
ghost use Rattle.theory_lists.specs.Written.{Writes};
ghost use Rattle.theory_digits.specs.Digits.{digits_high};
ghost use Rattle.theory_digits.specs.Number.{number_high};
ghost use Rattle.vstd_number_bytes.specs.Bytes.{spec_to_le_bytes, from_le_bytes};

// ---- 16 bits

#[unsafe(no_mangle)]
pub extern "C" fn pb_u16_from_le_bytes(s: &[u8]) -> answers::AnswerU16
    ensures { Answers result.ok (pos result.value) (from_le_bytes 16 1 s.now) }
{
    number_bytes::from_le_bytes::<u16>(s).into()
}

// Written into a lent slice at a place, or refused before a byte is written.
#[unsafe(no_mangle)]
pub extern "C" fn pb_u16_to_le_bytes(x: u16, s: &mut [u8], at: usize) -> bool
    ensures { Writes result s.old at (spec_to_le_bytes 2 x) s.new }
{
    number_bytes::write_le_bytes(s, at, x)
}

// ---- 16 bits, beyond vstd: highest first

#[unsafe(no_mangle)]
pub extern "C" fn pb_u16_from_be_bytes(s: &[u8]) -> answers::AnswerU16
    ensures { Answers result.ok (pos result.value) (number_high 256 2 s.now) }
{
    number_bytes::from_be_bytes::<u16>(s).into()
}

#[unsafe(no_mangle)]
pub extern "C" fn pb_u16_to_be_bytes(x: u16, s: &mut [u8], at: usize) -> bool
    ensures { Writes result s.old at (digits_high 256 2 x) s.new }
{
    number_bytes::write_be_bytes(s, at, x)
}

// ---- 32 bits

#[unsafe(no_mangle)]
pub extern "C" fn pb_u32_from_le_bytes(s: &[u8]) -> answers::AnswerU32
    ensures { Answers result.ok (pos result.value) (from_le_bytes 32 3 s.now) }
{
    number_bytes::from_le_bytes::<u32>(s).into()
}

// Written into a lent slice at a place, or refused before a byte is written.
#[unsafe(no_mangle)]
pub extern "C" fn pb_u32_to_le_bytes(x: u32, s: &mut [u8], at: usize) -> bool
    ensures { Writes result s.old at (spec_to_le_bytes 4 x) s.new }
{
    number_bytes::write_le_bytes(s, at, x)
}

// ---- 32 bits, beyond vstd: highest first

#[unsafe(no_mangle)]
pub extern "C" fn pb_u32_from_be_bytes(s: &[u8]) -> answers::AnswerU32
    ensures { Answers result.ok (pos result.value) (number_high 256 4 s.now) }
{
    number_bytes::from_be_bytes::<u32>(s).into()
}

#[unsafe(no_mangle)]
pub extern "C" fn pb_u32_to_be_bytes(x: u32, s: &mut [u8], at: usize) -> bool
    ensures { Writes result s.old at (digits_high 256 4 x) s.new }
{
    number_bytes::write_be_bytes(s, at, x)
}

// ---- 64 bits

#[unsafe(no_mangle)]
pub extern "C" fn pb_u64_from_le_bytes(s: &[u8]) -> answers::AnswerU64
    ensures { Answers result.ok (pos result.value) (from_le_bytes 64 7 s.now) }
{
    number_bytes::from_le_bytes::<u64>(s).into()
}

// Written into a lent slice at a place, or refused before a byte is written.
#[unsafe(no_mangle)]
pub extern "C" fn pb_u64_to_le_bytes(x: u64, s: &mut [u8], at: usize) -> bool
    ensures { Writes result s.old at (spec_to_le_bytes 8 x) s.new }
{
    number_bytes::write_le_bytes(s, at, x)
}

// ---- 64 bits, beyond vstd: highest first

#[unsafe(no_mangle)]
pub extern "C" fn pb_u64_from_be_bytes(s: &[u8]) -> answers::AnswerU64
    ensures { Answers result.ok (pos result.value) (number_high 256 8 s.now) }
{
    number_bytes::from_be_bytes::<u64>(s).into()
}

#[unsafe(no_mangle)]
pub extern "C" fn pb_u64_to_be_bytes(x: u64, s: &mut [u8], at: usize) -> bool
    ensures { Writes result s.old at (digits_high 256 8 x) s.new }
{
    number_bytes::write_be_bytes(s, at, x)
}
