// Numbers as decimal text, of which vstd promises nothing: each function's contract is that of the operation itself, and its body a call of it.
#![tactic(auto)]

ghost use Rattle.std.specs.Prelude.{pos};
ghost use Rattle.theory_whole.specs.Kind.{unsigned, signed};
ghost use Rattle.theory_answers.specs.Answer.{Answers};
ghost use Rattle.theory_decimal.specs.Written as text;
ghost use Rattle.theory_decimal.specs.Read as said;

// ---- 8 bits

#[unsafe(no_mangle)]
pub extern "C" fn pb_u8_read_decimal(s: &[u8], from: usize, to: usize) -> answers::AnswerU8
    ensures { Answers result.ok (pos result.value) (said.natural_in (unsigned 8) from to s.now) }
{
    decimal_read::read::<u8>(s, from, to).into()
}

#[unsafe(no_mangle)]
pub extern "C" fn pb_u8_write_decimal(x: u8, s: &mut [u8], at: usize) -> answers::AnswerUsize
    ensures { text.Shows result.ok result.value s.old at (text.natural x) s.new }
{
    decimal_write::write(s, at, x).into()
}

#[unsafe(no_mangle)]
pub extern "C" fn pb_i8_read_decimal(s: &[u8], from: usize, to: usize) -> answers::AnswerI8
    ensures { Answers result.ok result.value (said.whole_in (signed 8) from to s.now) }
{
    decimal_read_signed::read::<i8>(s, from, to).into()
}

#[unsafe(no_mangle)]
pub extern "C" fn pb_i8_write_decimal(x: i8, s: &mut [u8], at: usize) -> answers::AnswerUsize
    ensures { text.Shows result.ok result.value s.old at (text.whole x) s.new }
{
    decimal_write::write_signed(s, at, x).into()
}

// ---- 16 bits

#[unsafe(no_mangle)]
pub extern "C" fn pb_u16_read_decimal(s: &[u8], from: usize, to: usize) -> answers::AnswerU16
    ensures { Answers result.ok (pos result.value) (said.natural_in (unsigned 16) from to s.now) }
{
    decimal_read::read::<u16>(s, from, to).into()
}

#[unsafe(no_mangle)]
pub extern "C" fn pb_u16_write_decimal(x: u16, s: &mut [u8], at: usize) -> answers::AnswerUsize
    ensures { text.Shows result.ok result.value s.old at (text.natural x) s.new }
{
    decimal_write::write(s, at, x).into()
}

#[unsafe(no_mangle)]
pub extern "C" fn pb_i16_read_decimal(s: &[u8], from: usize, to: usize) -> answers::AnswerI16
    ensures { Answers result.ok result.value (said.whole_in (signed 16) from to s.now) }
{
    decimal_read_signed::read::<i16>(s, from, to).into()
}

#[unsafe(no_mangle)]
pub extern "C" fn pb_i16_write_decimal(x: i16, s: &mut [u8], at: usize) -> answers::AnswerUsize
    ensures { text.Shows result.ok result.value s.old at (text.whole x) s.new }
{
    decimal_write::write_signed(s, at, x).into()
}

// ---- 32 bits

#[unsafe(no_mangle)]
pub extern "C" fn pb_u32_read_decimal(s: &[u8], from: usize, to: usize) -> answers::AnswerU32
    ensures { Answers result.ok (pos result.value) (said.natural_in (unsigned 32) from to s.now) }
{
    decimal_read::read::<u32>(s, from, to).into()
}

#[unsafe(no_mangle)]
pub extern "C" fn pb_u32_write_decimal(x: u32, s: &mut [u8], at: usize) -> answers::AnswerUsize
    ensures { text.Shows result.ok result.value s.old at (text.natural x) s.new }
{
    decimal_write::write(s, at, x).into()
}

#[unsafe(no_mangle)]
pub extern "C" fn pb_i32_read_decimal(s: &[u8], from: usize, to: usize) -> answers::AnswerI32
    ensures { Answers result.ok result.value (said.whole_in (signed 32) from to s.now) }
{
    decimal_read_signed::read::<i32>(s, from, to).into()
}

#[unsafe(no_mangle)]
pub extern "C" fn pb_i32_write_decimal(x: i32, s: &mut [u8], at: usize) -> answers::AnswerUsize
    ensures { text.Shows result.ok result.value s.old at (text.whole x) s.new }
{
    decimal_write::write_signed(s, at, x).into()
}

// ---- 64 bits

#[unsafe(no_mangle)]
pub extern "C" fn pb_u64_read_decimal(s: &[u8], from: usize, to: usize) -> answers::AnswerU64
    ensures { Answers result.ok (pos result.value) (said.natural_in (unsigned 64) from to s.now) }
{
    decimal_read::read::<u64>(s, from, to).into()
}

#[unsafe(no_mangle)]
pub extern "C" fn pb_u64_write_decimal(x: u64, s: &mut [u8], at: usize) -> answers::AnswerUsize
    ensures { text.Shows result.ok result.value s.old at (text.natural x) s.new }
{
    decimal_write::write(s, at, x).into()
}

#[unsafe(no_mangle)]
pub extern "C" fn pb_i64_read_decimal(s: &[u8], from: usize, to: usize) -> answers::AnswerI64
    ensures { Answers result.ok result.value (said.whole_in (signed 64) from to s.now) }
{
    decimal_read_signed::read::<i64>(s, from, to).into()
}

#[unsafe(no_mangle)]
pub extern "C" fn pb_i64_write_decimal(x: i64, s: &mut [u8], at: usize) -> answers::AnswerUsize
    ensures { text.Shows result.ok result.value s.old at (text.whole x) s.new }
{
    decimal_write::write_signed(s, at, x).into()
}

// ---- the size type

#[unsafe(no_mangle)]
pub extern "C" fn pb_usize_read_decimal(s: &[u8], from: usize, to: usize) -> answers::AnswerUsize
    ensures { Answers result.ok (pos result.value) (said.natural_in (unsigned 64) from to s.now) }
{
    decimal_read::read::<usize>(s, from, to).into()
}

#[unsafe(no_mangle)]
pub extern "C" fn pb_usize_write_decimal(x: usize, s: &mut [u8], at: usize) -> answers::AnswerUsize
    ensures { text.Shows result.ok result.value s.old at (text.natural x) s.new }
{
    decimal_write::write(s, at, x).into()
}

#[unsafe(no_mangle)]
pub extern "C" fn pb_isize_read_decimal(s: &[u8], from: usize, to: usize) -> answers::AnswerIsize
    ensures { Answers result.ok result.value (said.whole_in (signed 64) from to s.now) }
{
    decimal_read_signed::read::<isize>(s, from, to).into()
}

#[unsafe(no_mangle)]
pub extern "C" fn pb_isize_write_decimal(x: isize, s: &mut [u8], at: usize) -> answers::AnswerUsize
    ensures { text.Shows result.ok result.value s.old at (text.whole x) s.new }
{
    decimal_write::write_signed(s, at, x).into()
}
