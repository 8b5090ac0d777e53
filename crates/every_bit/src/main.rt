// Zeros and ones of every number of 8 and of 16 bits against a rule of their own, by comparing with powers of two; and bytes of a number there and
// back, for every number of 16 bits and for the edges of 32 and 64.
#![tactic(auto)]

ghost use Rattle.std.specs.Prelude.{◌≡◌, ◌≤◌, ◌<◌};

use std::io;

fn line(rt: &impl Print, what: &str, tried: u32, wrong: u32) -> io::Result<()> {
    println!(rt; "{what}: {tried} tried, {wrong} wrong")
}

fn one_if(test: bool) -> u32
    ensures { result ≤ 1 }
{
    if test { 1 } else { 0 }
}

// ---- zeros and ones

#[derive(Clone, Copy, PartialEq, Eq, Debug)]
enum Count {
    LeadingZeros,
    LeadingOnes,
    TrailingZeros,
    TrailingOnes,
}

// Whether the count goes on past the place of a power of two.
fn goes_on(count: Count, size: u32, x: u32, power: u32) -> bool
    requires { 1 < power }
{
    match count {
        Count::LeadingZeros => x < power / 2,
        Count::LeadingOnes => size as u64 <= x as u64 + (power / 2) as u64,
        Count::TrailingZeros => x % power == 0,
        Count::TrailingOnes => x % power == power - 1,
    }
}

fn counted(n: u32, more: bool) -> u32 {
    if more && n < 32 { n + 1 } else { n }
}

// How many powers of two up to size, from 2 on, the count goes past: size is 2 to the number of bits.
fn rule(count: Count, size: u32, x: u32) -> u32 {
    let mut power = size;
    let mut n: u32 = 0;
    while 1 < power {
        n = counted(n, goes_on(count, size, x, power));
        power /= 2;
    }
    n
}

fn wrong_8(x: u8) -> u32
    ensures { result ≤ 4 }
{
    let n = x as u32;
    let a = one_if(zeros::leading_zeros(x) != rule(Count::LeadingZeros, 256, n));
    let b = one_if(zeros::leading_ones(x) != rule(Count::LeadingOnes, 256, n));
    let c = one_if(zeros::trailing_zeros(x) != rule(Count::TrailingZeros, 256, n));
    let d = one_if(zeros::trailing_ones(x) != rule(Count::TrailingOnes, 256, n));
    a + b + c + d
}

fn wrong_16(x: u16) -> u32
    ensures { result ≤ 4 }
{
    let n = x as u32;
    let a = one_if(zeros::leading_zeros(x) != rule(Count::LeadingZeros, 65536, n));
    let b = one_if(zeros::leading_ones(x) != rule(Count::LeadingOnes, 65536, n));
    let c = one_if(zeros::trailing_zeros(x) != rule(Count::TrailingZeros, 65536, n));
    let d = one_if(zeros::trailing_ones(x) != rule(Count::TrailingOnes, 65536, n));
    a + b + c + d
}

fn every_8(rt: &impl Print) -> io::Result<()> {
    let mut wrong: u32 = 0;
    let mut tried: u32 = 0;
    for x in 0..256u32 {
        wrong += wrong_8(x as u8);
        tried += 4;
    }
    line(rt, "zeros and ones, 8 bits", tried, wrong)
}

fn every_16(rt: &impl Print) -> io::Result<()> {
    let mut wrong: u32 = 0;
    let mut tried: u32 = 0;
    for x in 0..65536u32 {
        wrong += wrong_16(x as u16);
        tried += 4;
    }
    line(rt, "zeros and ones, 16 bits", tried, wrong)
}

// ---- bytes, there and back in both orders

fn trip_16(x: u16) -> u32
    ensures { result ≤ 2 }
{
    let low: [u8; 2] = number_bytes::to_le_bytes(x);
    let high: [u8; 2] = number_bytes::to_be_bytes(x);
    let from_low = number_bytes::from_le_bytes(&low);
    let from_high = number_bytes::from_be_bytes(&high);
    one_if((from_low != Some(x)) | (low[0] != high[1]))
        + one_if((from_high != Some(x)) | (low[1] != high[0]))
}

fn trip_32(x: u32) -> u32
    ensures { result ≤ 2 }
{
    let low: [u8; 4] = number_bytes::to_le_bytes(x);
    let high: [u8; 4] = number_bytes::to_be_bytes(x);
    let from_low = number_bytes::from_le_bytes(&low);
    let from_high = number_bytes::from_be_bytes(&high);
    one_if((from_low != Some(x)) | (low[0] != high[3]))
        + one_if((from_high != Some(x)) | (low[1] != high[2]))
}

fn trip_64(x: u64) -> u32
    ensures { result ≤ 2 }
{
    let low: [u8; 8] = number_bytes::to_le_bytes(x);
    let high: [u8; 8] = number_bytes::to_be_bytes(x);
    let from_low = number_bytes::from_le_bytes(&low);
    let from_high = number_bytes::from_be_bytes(&high);
    one_if((from_low != Some(x)) | (low[0] != high[7]))
        + one_if((from_high != Some(x)) | (low[3] != high[4]))
}

fn trips_16(rt: &impl Print) -> io::Result<()> {
    let mut wrong: u32 = 0;
    let mut tried: u32 = 0;
    for x in 0..65536u32 {
        wrong += trip_16(x as u16);
        tried += 2;
    }
    line(rt, "there and back, 16 bits", tried, wrong)
}

// A single one, ones at the low end, and ones at the high end.
fn trips_32(rt: &impl Print) -> io::Result<()> {
    let mut wrong: u32 = 0;
    let mut tried: u32 = 0;
    for k in 0..32u32 {
        let low = u32::MAX >> k;
        wrong += trip_32(1 << k) + trip_32(low) + trip_32(!low);
        tried += 6;
    }
    line(rt, "there and back, edges of 32 bits", tried, wrong)
}

fn trips_64(rt: &impl Print) -> io::Result<()> {
    let mut wrong: u32 = 0;
    let mut tried: u32 = 0;
    for k in 0..64u32 {
        let low = u64::MAX >> k;
        wrong += trip_64(1 << k) + trip_64(low) + trip_64(!low);
        tried += 6;
    }
    line(rt, "there and back, edges of 64 bits", tried, wrong)
}

// What a byte of 24, each of them 170, should be once eight bytes are written from a place on, or refused.
fn should_be(new: [u8; 8], at: usize, i: usize) -> u8 {
    if at <= 16 && at <= i && i - at < 8 {
        new[i - at]
    } else {
        170
    }
}

fn written_at(at: usize) -> u32
    ensures { result ≤ 25 }
{
    let x: u64 = 0x0102030405060708;
    let new: [u8; 8] = number_bytes::to_le_bytes(x);
    let mut s = [170u8; 24];
    let ok = number_bytes::write_le_bytes(&mut s, at, x);
    let mut wrong = one_if(ok != (at <= 16));
    for i in 0..24 {
        wrong += one_if(s[i] != should_be(new, at, i));
    }
    wrong
}

fn writes(rt: &impl Print) -> io::Result<()> {
    let mut wrong: u32 = 0;
    for at in 0..32 {
        wrong += written_at(at);
    }
    line(rt, "written at a place, bytes and answers", 800, wrong)
}

fn main(rt: HostRuntime) -> io::Result<()> {
    every_8(&rt)?;
    every_16(&rt)?;
    trips_16(&rt)?;
    trips_32(&rt)?;
    trips_64(&rt)?;
    writes(&rt)
}
