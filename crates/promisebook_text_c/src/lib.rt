// The exports of promisebook_text, as a static library: each has the clauses of the face's function, which it calls.
#![tactic(auto)]

ghost use Rattle.vstd_text.specs.Promises as promise;

// ---- one scalar value

// char::len_utf8
#[unsafe(no_mangle)]
pub extern "C" fn pb_text_scalar_len(c: u32) -> answers::AnswerUsize
    ensures { promise.ScalarLen result.ok result.value c }
{
    promisebook_text::pb_text_scalar_len(c)
}

// char::is_whitespace
#[unsafe(no_mangle)]
pub extern "C" fn pb_text_is_white_space(c: u32) -> bool
    ensures { promise.IsWhiteSpace result c }
{
    promisebook_text::pb_text_is_white_space(c)
}

#[unsafe(no_mangle)]
pub extern "C" fn pb_text_write(out: &mut [u8], at: usize, c: u32) -> answers::AnswerUsize
    ensures { promise.Write result.ok result.value out.old out.new at c }
{
    promisebook_text::pb_text_write(out, at, c)
}

// ---- the ends of a part

#[unsafe(no_mangle)]
pub extern "C" fn pb_text_read_first(s: &[u8], from: usize, to: usize) -> text_answers::TextRead
    ensures { promise.ReadFirst result.ok result.value result.length s.now from to }
{
    promisebook_text::pb_text_read_first(s, from, to)
}

#[unsafe(no_mangle)]
pub extern "C" fn pb_text_read_last(s: &[u8], from: usize, to: usize) -> text_answers::TextRead
    ensures { promise.ReadLast result.ok result.value result.length s.now from to }
{
    promisebook_text::pb_text_read_last(s, from, to)
}

// ---- whole texts

#[unsafe(no_mangle)]
pub extern "C" fn pb_text_valid(s: &[u8]) -> bool
    ensures { promise.Valid result s.now }
{
    promisebook_text::pb_text_valid(s)
}

#[unsafe(no_mangle)]
pub extern "C" fn pb_text_count(s: &[u8]) -> answers::AnswerUsize
    ensures { promise.Count result.ok result.value s.now }
{
    promisebook_text::pb_text_count(s)
}

#[unsafe(no_mangle)]
pub extern "C" fn pb_text_is_boundary(s: &[u8], at: usize) -> answers::AnswerBool
    ensures { promise.IsBoundary result.ok result.value s.now at }
{
    promisebook_text::pb_text_is_boundary(s, at)
}

// Both sides of a boundary are valid.
#[unsafe(no_mangle)]
pub extern "C" fn pb_text_split_at(s: &[u8], at: usize) -> text_answers::TextSplit
    ensures { promise.SplitAt result.ok result.middle result.end s.now at }
{
    promisebook_text::pb_text_split_at(s, at)
}

#[unsafe(no_mangle)]
pub extern "C" fn pb_text_is_ascii(s: &[u8]) -> bool
    ensures { promise.IsAscii result s.now }
{
    promisebook_text::pb_text_is_ascii(s)
}

// ---- beyond vstd

// How far the text is valid.
#[unsafe(no_mangle)]
pub extern "C" fn pb_text_valid_up_to(s: &[u8]) -> usize
    ensures { promise.ValidUpTo result s.now }
{
    promisebook_text::pb_text_valid_up_to(s)
}
