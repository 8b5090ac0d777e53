// Numbers written as decimal text at a place of a slice (theory_decimal): 64 bits, which every other kind goes by. No function asks anything of its caller.
#![tactic(auto)]

ghost use Rattle.std.specs.Prelude.{◌≡◌, ◌+◌, ◌≤◌, ◌<◌, ◌^◌, length};
ghost use Rattle.std.specs.Option.{is_some, unwrap_or};
ghost use Rattle.theory_lists.specs.Written.{written};
ghost use Rattle.theory_decimal.specs.Written as text;

use integers::{Signed, Unsigned};
use signed_order::magnitude;

fn places_of_four(n: u64) -> usize
    requires { n < 10000 }
    ensures { result ≡ text.places 10 n }
{
    match n {
        0..=9 => 1,
        10..=99 => 2,
        100..=999 => 3,
        _ => 4,
    }
}

fn places(n: u64) -> usize
    ensures { (result ≡ text.places 10 n) × (result ≤ 20) }
{
    let mut count = 0;
    let mut left = n;
    while 10000 <= left {
        left /= 10000;
        count += 4;
    }
    count + places_of_four(left)
}

// Writes so many figures of n, two at a time, from the last: by the place, since chunks from the end are no plainer where one figure may be left over.
fn put(out: &mut [u8], at: usize, count: usize, n: u64)
    requires { (at + count ≤ length out.old) × (n < 10 ^ count) }
    ensures { out.new ≡ written out.old at (text.figures count n) }
{
    let mut left = n;
    let mut place = at + count;
    while at + 1 < place {
        let pair = (left % 100) as u8;
        place -= 2;
        out[place + 1] = b'0' + pair % 10;
        out[place] = b'0' + pair / 10;
        left = left / 100;
    }
    if at < place {
        out[at] = b'0' + left as u8;
    }
}

fn write_u64(out: &mut [u8], at: usize, x: u64) -> Option<usize>
    ensures { text.Shows (is_some result) (unwrap_or result 0) out.old at (text.natural x) out.new }
{
    let count = places(x);
    if out.len() < count {
        return None;
    }
    if out.len() - count < at {
        return None;
    }
    put(out, at, count, x);
    Some(count)
}

fn write_with_sign(out: &mut [u8], at: usize, negative: bool, magnitude: u64) -> Option<usize>
    ensures { text.Shows (is_some result) (unwrap_or result 0) out.old at (text.with_sign negative magnitude) out.new }
{
    if !negative {
        return write_u64(out, at, magnitude);
    }
    let count = places(magnitude);
    if out.len() <= count {
        return None;
    }
    if out.len() - count <= at {
        return None;
    }
    out[at] = b'-';
    put(out, at + 1, count, magnitude);
    Some(count + 1)
}

pub fn write<T: Unsigned>(out: &mut [u8], at: usize, x: T) -> Option<usize>
    ensures { text.Shows (is_some result) (unwrap_or result 0) out.old at (text.natural (T.whole x)) out.new }
{
    write_u64(out, at, x.to_u64())
}

pub fn write_signed<T: Signed>(out: &mut [u8], at: usize, x: T) -> Option<usize>
    ensures { text.Shows (is_some result) (unwrap_or result 0) out.old at (text.whole (T.whole x)) out.new }
{
    write_with_sign(out, at, x < T::ZERO, magnitude(x).to_u64())
}
