// UTF-8 by bits, beside the library: the value first, and then whether it may have been written so. Past the end of the bytes there are none. And the
// ranges of White_Space in Unicode's list of properties.
ghost use Rattle.std.specs.Prelude.{◌≤◌};

fn announced(b: u32) -> usize
    ensures { result ≤ 4 }
{
    if b >> 7 == 0 {
        return 1;
    }
    if b >> 5 == 6 {
        return 2;
    }
    if b >> 4 == 14 {
        return 3;
    }
    if b >> 3 == 30 {
        return 4;
    }
    0
}

fn least(n: usize) -> u32 {
    match n {
        1 => 0,
        2 => 1 << 7,
        3 => 1 << 11,
        _ => 1 << 16,
    }
}

fn first_bits(n: usize, b: u32) -> u32 {
    match n {
        1 => b,
        2 => b & 31,
        3 => b & 15,
        _ => b & 7,
    }
}

fn wide(b: u8) -> u32 {
    b as u32
}

// The byte at a place, or one that may stand nowhere.
fn byte(s: &[u8], at: usize) -> u32 {
    if at < s.len() { wide(s[at]) } else { 0xff }
}

// How many bytes of a form begin at a place; 0 where none does.
pub fn form_at(s: &[u8], at: usize) -> usize {
    if s.len() <= at {
        return 0;
    }
    let b = byte(s, at);
    let n = announced(b);
    if n == 0 {
        return 0;
    }
    let mut v = first_bits(n, b);
    let mut k: usize = 1;
    while k < n {
        let f = byte(s, at + k);
        if f >> 6 != 2 {
            return 0;
        }
        v = v << 6 | f & 63;
        k += 1;
    }
    if v < least(n) {
        return 0;
    }
    if 0x10ffff < v {
        return 0;
    }
    if v >> 11 == 27 {
        return 0;
    }
    n
}

pub fn valid(s: &[u8]) -> bool {
    let mut at: usize = 0;
    while at < s.len() {
        let n = form_at(s, at);
        if n == 0 {
            return false;
        }
        if s.len() - at < n {
            return false;
        }
        at += n;
    }
    true
}

pub fn is_white_space(c: u32) -> bool {
    match c {
        0x9..=0xd => true,
        0x20 => true,
        0x85 => true,
        0xa0 => true,
        0x1680 => true,
        0x2000..=0x200a => true,
        0x2028..=0x2029 => true,
        0x202f => true,
        0x205f => true,
        0x3000 => true,
        _ => false,
    }
}
