// Every slice of up to 4 bytes over a few values, with every part, place and other slice, and long slices at the edges of the blocks
// that the operations go by: each answer is held against a rule that goes byte by byte.
#![tactic(auto)]

mod held;
mod rule;

use std::io;

fn count(right: bool, wrong: u64) -> u64 {
    if right {
        wrong
    } else if wrong < u64::MAX {
        wrong + 1
    } else {
        wrong
    }
}

// ---- all short slices

fn three_values(c: usize) -> [u8; 4] {
    [
        (c % 3) as u8,
        (c / 3 % 3) as u8,
        (c / 9 % 3) as u8,
        (c / 27 % 3) as u8,
    ]
}

fn two_values(c: usize) -> [u8; 4] {
    [
        (c % 2) as u8,
        (c / 2 % 2) as u8,
        (c / 4 % 2) as u8,
        (c / 8 % 2) as u8,
    ]
}

fn one_slice(c: usize, n: usize, f: usize, t: usize, x: usize, y: usize) -> bool {
    let bytes = three_values(c);
    let old = rule::front(&bytes[..], n);
    let v = (y % 4) as u8;
    held::reads(old, f, t, x, y, v)
        & held::reverses(old, f, t)
        & held::copies_within(old, f, t, x)
        & held::sets(old, f, t, x, v)
}

fn two_slices(c: usize, n: usize, f: usize, t: usize, d: usize, m: usize) -> bool {
    let bytes = two_values(c);
    let more = two_values(d);
    let old = rule::front(&bytes[..], n);
    let other = rule::front(&more[..], m);
    held::compares(old, f, t, other) & held::copies_from(old, f, t, other)
}

// 81 fillings, 5 lengths, and four numbers from 0 to 5: one past every end.
fn every_one() -> u64 {
    let mut wrong: u64 = 0;
    let mut c = 0;
    while c < 524880 {
        let right = one_slice(
            c % 81,
            c / 81 % 5,
            c / 405 % 6,
            c / 2430 % 6,
            c / 14580 % 6,
            c / 87480 % 6,
        );
        wrong = count(right, wrong);
        c += 1;
    }
    wrong
}

// 16 fillings and 5 lengths of each of the two, and two numbers from 0 to 5.
fn every_two() -> u64 {
    let mut wrong: u64 = 0;
    let mut c = 0;
    while c < 230400 {
        let right = two_slices(
            c % 16,
            c / 16 % 5,
            c / 80 % 6,
            c / 480 % 6,
            c / 2880 % 16,
            c / 46080 % 5,
        );
        wrong = count(right, wrong);
        c += 1;
    }
    wrong
}

// ---- long slices, at the edges of blocks

fn edge(i: usize) -> usize {
    match i {
        0 => 0,
        1 => 1,
        2 => 7,
        3 => 8,
        4 => 9,
        5 => 15,
        6 => 16,
        7 => 17,
        8 => 31,
        9 => 32,
        10 => 33,
        11 => 63,
        12 => 64,
        13 => 65,
        14 => 95,
        15 => 96,
        16 => 97,
        17 => 127,
        18 => 128,
        19 => 129,
        20 => 191,
        21 => 192,
        22 => 193,
        23 => 255,
        24 => 256,
        _ => 257,
    }
}

// No two stretches of it are alike, and 255 is not in it.
fn pattern(d: &mut [u8]) {
    let mut k = 0;
    while k < d.len() {
        d[k] = (k / 3 % 128 + k % 3 * 40) as u8;
        k += 1;
    }
}

fn plant(d: &mut [u8], place: usize) {
    if place < d.len() {
        d[place] = 255;
    }
}

// A part of n bytes from f on: reversed, copied to `place`, and asked for the byte 255 that stands at `place`.
fn long_one(n: usize, f: usize, place: usize) -> bool {
    let mut bytes = [0u8; 300];
    pattern(&mut bytes[..]);
    let t = rule::plus(f, n);
    let moved = held::reverses(&bytes[..], f, t) & held::copies_within(&bytes[..], f, t, place);
    plant(&mut bytes[..], place);
    moved & held::contains(&bytes[..], f, t, 255)
}

// The same part beside a copy of it that differs at `place`, and m bytes longer.
fn long_two(n: usize, f: usize, place: usize, m: usize) -> bool {
    let mut bytes = [0u8; 300];
    pattern(&mut bytes[..]);
    let mut more = [0u8; 260];
    rule::fill(&mut more[..], rule::back(&bytes[..], f));
    plant(&mut more[..], place);
    let t = rule::plus(rule::plus(f, n), m);
    let other = rule::front(&more[..], n);
    held::compares(&bytes[..], f, t, other) & held::copies_from(&bytes[..], f, t, other)
}

// 26 lengths, 4 places to begin, 26 other places, 3 that are longer by a few bytes.
fn every_long() -> u64 {
    let mut wrong: u64 = 0;
    let mut c = 0;
    while c < 8112 {
        let n = edge(c % 26);
        let f = c / 26 % 4;
        let place = edge(c / 104 % 26);
        let right = long_one(n, f, place) & long_two(n, f, place, c / 2704 % 3);
        wrong = count(right, wrong);
        c += 1;
    }
    wrong
}

// ---- what came of it

fn report(rt: &impl Print, name: &str, cases: u64, wrong: u64) -> io::Result<()> {
    println!(rt; "{name}: {cases} cases, {wrong} wrong")
}

fn main(rt: HostRuntime) -> io::Result<()> {
    report(&rt, "one short slice", 524880, every_one())?;
    report(&rt, "two short slices", 230400, every_two())?;
    report(&rt, "long slices", 8112, every_long())
}
