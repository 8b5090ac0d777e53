// The exports of promisebook_slices, as a static library: each has the clauses of the face's function, which it calls.
#![tactic(auto)]

ghost use Rattle.vstd_slices.specs.Promises as promise;

// ---- reading

#[unsafe(no_mangle)]
pub extern "C" fn pb_bytes_len(s: &[u8], from: usize, to: usize) -> answers::AnswerUsize
    ensures { promise.Len result.ok result.value s.now from to }
{
    promisebook_slices::pb_bytes_len(s, from, to)
}

#[unsafe(no_mangle)]
pub extern "C" fn pb_bytes_is_empty(s: &[u8], from: usize, to: usize) -> answers::AnswerBool
    ensures { promise.IsEmpty result.ok result.value s.now from to }
{
    promisebook_slices::pb_bytes_is_empty(s, from, to)
}

#[unsafe(no_mangle)]
pub extern "C" fn pb_bytes_get(s: &[u8], from: usize, to: usize, i: usize) -> answers::AnswerU8
    ensures { promise.Get result.ok result.value s.now from to i }
{
    promisebook_slices::pb_bytes_get(s, from, to, i)
}

#[unsafe(no_mangle)]
pub extern "C" fn pb_bytes_first(s: &[u8], from: usize, to: usize) -> answers::AnswerU8
    ensures { promise.First result.ok result.value s.now from to }
{
    promisebook_slices::pb_bytes_first(s, from, to)
}

#[unsafe(no_mangle)]
pub extern "C" fn pb_bytes_last(s: &[u8], from: usize, to: usize) -> answers::AnswerU8
    ensures { promise.Last result.ok result.value s.now from to }
{
    promisebook_slices::pb_bytes_last(s, from, to)
}

#[unsafe(no_mangle)]
pub extern "C" fn pb_bytes_sub_range(
    s: &[u8],
    from: usize,
    to: usize,
    a: usize,
    e: usize,
) -> answers::BytesRange
    ensures { promise.SubRange result.ok result.from result.to s.now from to a e }
{
    promisebook_slices::pb_bytes_sub_range(s, from, to, a, e)
}

#[unsafe(no_mangle)]
pub extern "C" fn pb_bytes_split_at(
    s: &[u8],
    from: usize,
    to: usize,
    m: usize,
) -> answers::BytesSplit
    ensures { promise.SplitAt result.ok result.from result.middle result.to s.now from to m }
{
    promisebook_slices::pb_bytes_split_at(s, from, to, m)
}

#[unsafe(no_mangle)]
pub extern "C" fn pb_bytes_split_first(
    s: &[u8],
    from: usize,
    to: usize,
) -> answers::BytesFirstAndRest
    ensures { promise.SplitFirst result.ok result.first result.from result.to s.now from to }
{
    promisebook_slices::pb_bytes_split_first(s, from, to)
}

// The first of vstd's chunks, from which the others follow.
#[unsafe(no_mangle)]
pub extern "C" fn pb_bytes_next_piece(
    s: &[u8],
    from: usize,
    to: usize,
    n: usize,
) -> answers::BytesRange
    ensures { promise.NextPiece result.ok result.from result.to s.now from to n }
{
    promisebook_slices::pb_bytes_next_piece(s, from, to, n)
}

// ---- comparing

#[unsafe(no_mangle)]
pub extern "C" fn pb_bytes_starts_with(
    s: &[u8],
    from: usize,
    to: usize,
    needle: &[u8],
) -> answers::AnswerBool
    ensures { promise.StartsWith result.ok result.value s.now from to needle.now }
{
    promisebook_slices::pb_bytes_starts_with(s, from, to, needle)
}

#[unsafe(no_mangle)]
pub extern "C" fn pb_bytes_ends_with(
    s: &[u8],
    from: usize,
    to: usize,
    needle: &[u8],
) -> answers::AnswerBool
    ensures { promise.EndsWith result.ok result.value s.now from to needle.now }
{
    promisebook_slices::pb_bytes_ends_with(s, from, to, needle)
}

#[unsafe(no_mangle)]
pub extern "C" fn pb_bytes_contains(s: &[u8], from: usize, to: usize, v: u8) -> answers::AnswerBool
    ensures { promise.Contains result.ok result.value s.now from to v }
{
    promisebook_slices::pb_bytes_contains(s, from, to, v)
}

#[unsafe(no_mangle)]
pub extern "C" fn pb_bytes_equal(
    s: &[u8],
    from: usize,
    to: usize,
    other: &[u8],
) -> answers::AnswerBool
    ensures { promise.Equal result.ok result.value s.now from to other.now }
{
    promisebook_slices::pb_bytes_equal(s, from, to, other)
}

// ---- writing

#[unsafe(no_mangle)]
pub extern "C" fn pb_bytes_set(s: &mut [u8], from: usize, to: usize, i: usize, v: u8) -> bool
    ensures { promise.Set result s.old s.new from to i v }
{
    promisebook_slices::pb_bytes_set(s, from, to, i, v)
}

#[unsafe(no_mangle)]
pub extern "C" fn pb_bytes_reverse(s: &mut [u8], from: usize, to: usize) -> bool
    ensures { promise.Reverse result s.old s.new from to }
{
    promisebook_slices::pb_bytes_reverse(s, from, to)
}

#[unsafe(no_mangle)]
pub extern "C" fn pb_bytes_copy_from(s: &mut [u8], from: usize, to: usize, other: &[u8]) -> bool
    ensures { promise.CopyFrom result s.old s.new from to other.now }
{
    promisebook_slices::pb_bytes_copy_from(s, from, to, other)
}

#[unsafe(no_mangle)]
pub extern "C" fn pb_bytes_copy_within(s: &mut [u8], from: usize, to: usize, at: usize) -> bool
    ensures { promise.CopyWithin result s.old s.new from to at }
{
    promisebook_slices::pb_bytes_copy_within(s, from, to, at)
}
