// A number from its bytes and back, lowest byte first (le) and highest first (be): the digits in base 256 (theory_digits). No function asks anything
// of its caller: a slice of another length is refused, and so is a place from which the bytes would run past the end, before a byte is written.
#![tactic(auto)]

ghost use Rattle.std.specs.Prelude.{◌≡◌, ◌≤◌, ◌+◌, ◌/◌, pos, length};
ghost use Rattle.std.specs.Option.{option_map};
ghost use Rattle.theory_answers.specs.Says.{Says};
ghost use Rattle.theory_lists.specs.Written.{Writes};
ghost use Rattle.theory_digits.specs.Digits.{digits, value, digits_high, value_high};
ghost use Rattle.theory_digits.specs.Number.{number, number_high};

use integers::Unsigned;

// How many bytes a number has.
fn size<T: Unsigned>() -> usize
    ensures { result ≡ T.bits / 8 }
{
    T::BITS as usize / 8
}

// Lowest first: one load where the compiler knows how many there are.
fn joined(s: &[u8]) -> u64
    requires { length s.now ≤ 8 }
    ensures { result ≡ value 256 s.now }
{
    let mut x = 0;
    for (i, b) in s.iter().enumerate() {
        x += (*b as u64) << (8 * i);
    }
    x
}

// So many of the lowest bytes, the other way round. Two, four and eight are written out: each is one swap, which the compiler sees before it joins the answer's
// flag to it.
fn turned(x: u64, count: usize) -> u64
    requires { count ≤ 8 }
    ensures { result ≡ value_high 256 (digits 256 count x) }
{
    match count {
        2 => turned_2(x),
        4 => turned_4(x),
        8 => turned_8(x),
        _ => turned_one_by_one(x, count),
    }
}

fn turned_one_by_one(x: u64, count: usize) -> u64
    requires { count ≤ 8 }
    ensures { result ≡ value_high 256 (digits 256 count x) }
{
    let mut left = x;
    let mut turned = 0;
    for _ in 0..count {
        turned = turned * 256 + left % 256;
        left /= 256;
    }
    turned
}

fn turned_2(x: u64) -> u64
    ensures { result ≡ value_high 256 (digits 256 2 x) }
{
    x % 256 * 256 + x / 256 % 256
}

fn turned_4(x: u64) -> u64
    ensures { result ≡ value_high 256 (digits 256 4 x) }
{
    turned_2(x) * 65536 + turned_2(x / 65536)
}

fn turned_8(x: u64) -> u64
    ensures { result ≡ value_high 256 (digits 256 8 x) }
{
    turned_4(x) * 4294967296 + turned_4(x / 4294967296)
}

// As many bytes as there is room for.
fn put_le(room: &mut [u8], x: u64)
    ensures { room.new ≡ digits 256 (length room.old) x }
{
    let mut left = x;
    for byte in room.iter_mut() {
        *byte = (left % 256) as u8;
        left /= 256;
    }
}

fn put_be(room: &mut [u8], x: u64)
    ensures { room.new ≡ digits_high 256 (length room.old) x }
{
    // By place, from the last to the first.
    let mut left = x;
    for i in 0..room.len() {
        room[room.len() - 1 - i] = (left % 256) as u8;
        left /= 256;
    }
}

// Whether so many bytes fit into a slice at a place.
fn fits(s: &[u8], at: usize, count: usize) -> bool
    ensures { Says result (at + count ≤ length s.now) }
{
    count <= s.len() && at <= s.len() - count
}

// ---- lowest first

pub fn from_le_bytes<T: Unsigned>(s: &[u8]) -> Option<T>
    ensures { option_map (λ r. pos (T.whole r)) result ≡ number 256 (T.bits / 8) s.now }
{
    if s.len() == size::<T>() {
        Some(T::truncated(joined(s)))
    } else {
        None
    }
}

pub fn to_le_bytes<T: Unsigned, const N: usize>(x: T) -> [u8; N]
    ensures { result ≡ digits 256 N (T.whole x) }
{
    let mut bytes = [0; N];
    put_le(&mut bytes, x.to_u64());
    bytes
}

pub fn write_le_bytes<T: Unsigned>(s: &mut [u8], at: usize, x: T) -> bool
    ensures { Writes result s.old at (digits 256 (T.bits / 8) (T.whole x)) s.new }
{
    let count = size::<T>();
    if !fits(s, at, count) {
        return false;
    }
    put_le(&mut s[at..at + count], x.to_u64());
    true
}

// ---- highest first

pub fn from_be_bytes<T: Unsigned>(s: &[u8]) -> Option<T>
    ensures { option_map (λ r. pos (T.whole r)) result ≡ number_high 256 (T.bits / 8) s.now }
{
    if s.len() == size::<T>() {
        Some(T::truncated(turned(joined(s), s.len())))
    } else {
        None
    }
}

pub fn to_be_bytes<T: Unsigned, const N: usize>(x: T) -> [u8; N]
    ensures { result ≡ digits_high 256 N (T.whole x) }
{
    let mut bytes = [0; N];
    put_be(&mut bytes, x.to_u64());
    bytes
}

pub fn write_be_bytes<T: Unsigned>(s: &mut [u8], at: usize, x: T) -> bool
    ensures { Writes result s.old at (digits_high 256 (T.bits / 8) (T.whole x)) s.new }
{
    let count = size::<T>();
    if !fits(s, at, count) {
        return false;
    }
    put_le(&mut s[at..at + count], turned(x.to_u64(), count));
    true
}
