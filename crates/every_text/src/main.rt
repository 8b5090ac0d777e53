// Text tried as a whole: the worked values, every string of up to three bytes and every string of four edge bytes beside the rule of `rule`, every scalar
// value written, read from both ends and split around, every number as white space or not, and a wrong byte at every place around the blocks of 64. A
// line for each says how many were right.
#![tactic(auto)]

mod rule;

ghost use Rattle.std.specs.Prelude.{◌≤◌, ◌<◌};

use std::io;
use text_read::Read;

fn line(rt: &impl Print, words: &str, n: u64) -> io::Result<()> {
    println!(rt; "{words}: {n}")
}

fn one_if(right: bool) -> u64
    ensures { result ≤ 1 }
{
    if right { 1 } else { 0 }
}

// ---- worked values

// s is the form of c and nothing else.
fn is_form(s: &[u8], c: u32) -> bool {
    let first = text_read::read_first(s, 0, s.len());
    let last = text_read::read_last(s, 0, s.len());
    let count = text_valid::count(s);
    let len = text_scalar::scalar_len(c);
    let mut out = [0xffu8; 8];
    let put = text_write::write(&mut out, 0, c);
    text_valid::valid(s)
        & is_read(first, c, s.len())
        & is_read(last, c, s.len())
        & (count == Some(1))
        & (len == Some(s.len()))
        & (put == Some(s.len()))
        & begins(&out, s)
}

fn is_read(read: Option<Read>, c: u32, n: usize) -> bool {
    match read {
        Some(read) => read.value == c && read.length == n,
        None => false,
    }
}

fn begins(out: &[u8; 8], s: &[u8]) -> bool {
    let mut i: usize = 0;
    while i < s.len() {
        if 8 <= i {
            return false;
        }
        if out[i] != s[i] {
            return false;
        }
        i += 1;
    }
    true
}

fn known(s: &[u8], c: u32) -> u64
    ensures { result ≤ 1 }
{
    one_if(is_form(s, c))
}

fn refused(s: &[u8]) -> u64
    ensures { result ≤ 1 }
{
    let first = text_read::read_first(s, 0, s.len());
    let count = text_valid::count(s);
    let border = text_valid::is_boundary(s, 0);
    let split = text_valid::split_at(s, 0);
    one_if(
        !(text_valid::valid(s)
            | first.is_some()
            | count.is_some()
            | border.is_some()
            | split.is_some())
            & (text_valid::valid_up_to(s) == 0),
    )
}

fn one_or_two_bytes() -> u64
    ensures { result ≤ 3 }
{
    known(b"\x7f", 0x7f) + known(b"\xc2\x80", 0x80) + known(b"\xdf\xbf", 0x7ff)
}

fn three_bytes() -> u64
    ensures { result ≤ 4 }
{
    known(b"\xe0\xa0\x80", 0x800)
        + known(b"\xed\x9f\xbf", 0xd7ff)
        + known(b"\xee\x80\x80", 0xe000)
        + known(b"\xef\xbf\xbf", 0xffff)
}

fn four_bytes() -> u64
    ensures { result ≤ 2 }
{
    known(b"\xf0\x90\x80\x80", 0x10000) + known(b"\xf4\x8f\xbf\xbf", 0x10ffff)
}

fn longer() -> u64 {
    refused(b"\xc0\x80")
        + refused(b"\xc1\xbf")
        + refused(b"\xe0\x9f\xbf")
        + refused(b"\xf0\x8f\xbf\xbf")
}

fn surrogates() -> u64 {
    refused(b"\xed\xa0\x80") + refused(b"\xed\xbf\xbf")
}

fn too_large() -> u64 {
    refused(b"\xf4\x90\x80\x80") + refused(b"\xf5\x80\x80\x80")
}

fn misplaced_or_cut() -> u64 {
    refused(b"\x80")
        + refused(b"\xff")
        + refused(b"\xc2")
        + refused(b"\xe2\x82")
        + refused(b"\xf0\x9f\x98")
}

fn worked(rt: &impl Print) -> io::Result<()> {
    line(
        rt,
        "worked values read, of 9",
        one_or_two_bytes() + three_bytes() + four_bytes(),
    )?;
    line(rt, "refused as longer than needed, of 4", longer())?;
    line(rt, "refused as surrogates, of 2", surrogates())?;
    line(rt, "refused as too large, of 2", too_large())?;
    line(
        rt,
        "refused as out of place or cut off, of 5",
        misplaced_or_cut(),
    )
}

// ---- every string of up to three bytes, and every string of four edge bytes

fn agree(s: &[u8]) -> u64
    ensures { result ≤ 1 }
{
    one_if(text_valid::valid(s) == rule::valid(s))
}

fn low(n: u64) -> u8 {
    (n % 256) as u8
}

const EDGES: [u8; 24] = [
    0x00, 0x41, 0x7f, 0x80, 0x8f, 0x90, 0x9f, 0xa0, 0xbf, 0xc0, 0xc1, 0xc2, 0xdf, 0xe0, 0xe1, 0xec,
    0xed, 0xee, 0xef, 0xf0, 0xf1, 0xf4, 0xf5, 0xff,
];

fn edge(n: u64) -> u8 {
    let e = EDGES;
    let i = (n % 24) as usize;
    e[i]
}

// The n-th string of up to three bytes, or of four edge bytes.
fn string(bytes: u8, n: u64) -> u64
    ensures { result ≤ 1 }
{
    match bytes {
        1 => agree(&[low(n)]),
        2 => agree(&[low(n / 256), low(n)]),
        3 => agree(&[low(n / 65536), low(n / 256), low(n)]),
        _ => agree(&[edge(n / 13824), edge(n / 576), edge(n / 24), edge(n)]),
    }
}

fn strings(bytes: u8, total: u64) -> u64 {
    let mut count: u64 = 0;
    let mut n: u64 = 0;
    while n < total {
        count += string(bytes, n);
        n += 1;
    }
    count
}

// ---- every number up to 0x110fff

// c is written inside a slice and read back from both ends; or refused, and nothing is written.
fn round(c: u32) -> bool {
    let mut out = [0xffu8; 8];
    let put = text_write::write(&mut out, 2, c);
    let n = put.unwrap_or(0);
    if 4 < n {
        return false;
    }
    let end = 2 + n;
    let first = text_read::read_first(&out, 2, end);
    let last = text_read::read_last(&out, 2, end);
    let count = text_valid::count(&out[2..end]);
    let untouched = (out[1] == 0xff) & (out[end] == 0xff);
    if put.is_some() {
        return is_read(first, c, n) & is_read(last, c, n) & (count == Some(1)) & untouched;
    }
    !(text_scalar::is_scalar(c) | first.is_some() | last.is_some()) & untouched
}

// A text of up to three scalars, the first and the last of one byte: a place is a boundary, and splits it, where it is before, between or behind them.
fn is_split_around(s: &[u8]) -> bool {
    let mut at: usize = 0;
    while at < 8 {
        let between = at < 2 || at + 1 == s.len() || at == s.len();
        let border = text_valid::is_boundary(s, at);
        let split = text_valid::split_at(s, at);
        if border != Some(between) || split.is_some() != between {
            return false;
        }
        if let Some((front, back)) = split {
            if front.from != 0 || front.to != at || back.from != at || back.to != s.len() {
                return false;
            }
        }
        at += 1;
    }
    true
}

// What is no scalar leaves two letters with nothing between them.
fn around_one(c: u32) -> bool {
    let mut out = [0x61u8; 6];
    let n = text_write::write(&mut out, 1, c).unwrap_or(0);
    if 4 < n {
        return false;
    }
    is_split_around(&out[..n + 2])
}

fn right(c: u32) -> bool {
    round(c) && around_one(c) && text_scalar::is_white_space(c) == rule::is_white_space(c)
}

fn rounds(from: u32, to: u32) -> u64
    requires { (from ≤ to) × (to < 2000000) }
    ensures { result < 2000000 }
{
    let mut count: u64 = 0;
    let mut c = from;
    while c < to {
        count += one_if(right(c));
        c += 1;
    }
    count
}

fn white_spaces() -> u64 {
    let mut count: u64 = 0;
    let mut c: u32 = 0;
    while c < 0x111000 {
        count += one_if(text_scalar::is_white_space(c));
        c += 1;
    }
    count
}

// ---- a wrong byte at every place of 200

fn fill(s: &mut [u8], a: u8, b: u8, c: u8) {
    let mut i: usize = 0;
    while i < s.len() {
        s[i] = third(i, a, b, c);
        i += 1;
    }
}

fn third(i: usize, a: u8, b: u8, c: u8) -> u8 {
    match i % 3 {
        0 => a,
        1 => b,
        _ => c,
    }
}

// Where the form begins that a place belongs to.
fn start_of(at: usize, three: bool) -> usize {
    if three { at - at % 3 } else { at }
}

fn found(s: &mut [u8], at: usize, wrong: u8, three: bool) -> u64
    ensures { result ≤ 1 }
{
    if s.len() <= at {
        return 0;
    }
    let right = s[at];
    s[at] = wrong;
    let up_to = text_valid::valid_up_to(s);
    let all = text_valid::valid(s);
    let ascii = text_ascii::is_ascii(s);
    s[at] = right;
    one_if((up_to == start_of(at, three)) & !(all | ascii))
}

fn wrongs(s: &mut [u8], wrong: u8, three: bool) -> u64 {
    let mut count: u64 = 0;
    let mut at: usize = 0;
    while at < 200 {
        count += found(s, at, wrong, three);
        at += 1;
    }
    count
}

fn cut(s: &[u8], n: usize, three: bool) -> u64
    ensures { result ≤ 1 }
{
    if s.len() < n {
        return 0;
    }
    let valid = text_valid::valid(&s[0..n]);
    let ascii = text_ascii::is_ascii(&s[0..n]);
    one_if((valid == (start_of(n, three) == n)) & (ascii == ((n == 0) | !three)))
}

// The first bytes of a text of equal forms are text where no form is cut, and ASCII where the forms are.
fn lengths(s: &[u8], three: bool) -> u64 {
    let mut count: u64 = 0;
    let mut n: usize = 0;
    while n < 200 {
        count += cut(s, n, three);
        n += 1;
    }
    count
}

fn among_ascii(rt: &impl Print) -> io::Result<()> {
    let mut s = [0x61u8; 200];
    line(
        rt,
        "places of 80 among ASCII, of 200",
        wrongs(&mut s, 0x80, false),
    )?;
    line(
        rt,
        "places of c2 among ASCII, of 200",
        wrongs(&mut s, 0xc2, false),
    )?;
    line(
        rt,
        "places of ff among ASCII, of 200",
        wrongs(&mut s, 0xff, false),
    )?;
    line(rt, "lengths of ASCII, of 200", lengths(&s, false))
}

fn among_forms_of_three(rt: &impl Print) -> io::Result<()> {
    let mut s = [0u8; 200];
    fill(&mut s, 0xe2, 0x82, 0xac);
    line(
        rt,
        "places of c0 among forms of three bytes, of 200",
        wrongs(&mut s, 0xc0, true),
    )?;
    line(
        rt,
        "places of ff among forms of three bytes, of 200",
        wrongs(&mut s, 0xff, true),
    )?;
    line(
        rt,
        "lengths of forms of three bytes, of 200",
        lengths(&s, true),
    )
}

fn every_string(rt: &impl Print) -> io::Result<()> {
    line(rt, "strings of no byte, of 1", agree(b""))?;
    line(rt, "strings of one byte, of 256", strings(1, 256))?;
    line(rt, "strings of two bytes, of 65536", strings(2, 65536))?;
    line(
        rt,
        "strings of three bytes, of 16777216",
        strings(3, 16777216),
    )?;
    line(
        rt,
        "strings of four edge bytes, of 331776",
        strings(4, 331776),
    )
}

fn every_number(rt: &impl Print) -> io::Result<()> {
    line(
        rt,
        "scalar values below the surrogates, of 55296",
        rounds(0, 0xd800),
    )?;
    line(rt, "surrogates refused, of 2048", rounds(0xd800, 0xe000))?;
    line(
        rt,
        "scalar values above them, of 1056768",
        rounds(0xe000, 0x110000),
    )?;
    line(
        rt,
        "larger numbers refused, of 4096",
        rounds(0x110000, 0x111000),
    )?;
    line(rt, "white space among all of them, of 25", white_spaces())
}

fn main(rt: HostRuntime) -> io::Result<()> {
    worked(&rt)?;
    every_string(&rt)?;
    every_number(&rt)?;
    among_ascii(&rt)?;
    among_forms_of_three(&rt)
}
