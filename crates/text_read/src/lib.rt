// Reading one scalar: the first of a part of a slice, or the last.
#![tactic(auto)]

ghost use Rattle.std.specs.Prelude.{◌≡◌, ◌<◌, length, get_or, drop, SomeIff, [], ◌∷◌};
ghost use Rattle.theory_lists.specs.Part.{part, Within};
ghost use Rattle.theory_text.specs.Text.{Begins, Ends};
ghost use Rattle.theory_text.specs.Table.{first};
ghost use Rattle.theory_text.specs.Reading.{decoded};
ghost use Rattle.theory_text.specs.Boundary.{Back};
ghost use Rattle.text_read.specs.Asked.{Leads};
ghost use Rattle.text_read.specs.Reads.{Reads};

// A scalar and how many bytes its form has.
#[derive(Clone, Copy)]
pub struct Read {
    pub value: u32,
    pub length: usize,
}

#[derive(Clone, Copy)]
struct Lead {
    bytes: usize,
    low: u8,
    high: u8,
}

// The row of the table that a first byte chooses, by comparisons: a match becomes a jump by a table, and takes up to 1.7 times as long.
fn row_of(b: u8) -> Lead
    ensures { Leads b result.bytes result.low result.high }
{
    if b < 0x80 {
        return Lead {
            bytes: 1,
            low: 0,
            high: 0,
        };
    }
    if b < 0xc2 {
        return Lead {
            bytes: 0,
            low: 0,
            high: 0,
        };
    }
    if b < 0xe0 {
        return Lead {
            bytes: 2,
            low: 0x80,
            high: 0xbf,
        };
    }
    if b == 0xe0 {
        return Lead {
            bytes: 3,
            low: 0xa0,
            high: 0xbf,
        };
    }
    if b < 0xed {
        return Lead {
            bytes: 3,
            low: 0x80,
            high: 0xbf,
        };
    }
    if b == 0xed {
        return Lead {
            bytes: 3,
            low: 0x80,
            high: 0x9f,
        };
    }
    if b < 0xf0 {
        return Lead {
            bytes: 3,
            low: 0x80,
            high: 0xbf,
        };
    }
    if b == 0xf0 {
        return Lead {
            bytes: 4,
            low: 0x90,
            high: 0xbf,
        };
    }
    if b < 0xf4 {
        return Lead {
            bytes: 4,
            low: 0x80,
            high: 0xbf,
        };
    }
    if b == 0xf4 {
        return Lead {
            bytes: 4,
            low: 0x80,
            high: 0x8f,
        };
    }
    Lead {
        bytes: 0,
        low: 0,
        high: 0,
    }
}

// How many bytes the form has that the four begin with.
#[inline(always)]
fn length_of(b0: u8, b1: u8, b2: u8, b3: u8) -> Option<usize>
    ensures { SomeIff result (0 < first (b0 ∷ b1 ∷ b2 ∷ b3 ∷ [])) (first (b0 ∷ b1 ∷ b2 ∷ b3 ∷ [])) }
{
    let row = row_of(b0);
    let n = row.bytes;
    if n == 0 {
        return None;
    }
    if n == 1 {
        return Some(1);
    }
    if b1 < row.low || row.high < b1 {
        return None;
    }
    if n == 2 {
        return Some(2);
    }
    if b2 / 64 != 2 {
        return None;
    }
    if n == 3 {
        return Some(3);
    }
    if b3 / 64 != 2 {
        return None;
    }
    Some(4)
}

// The value of the first n of the four.
#[inline(always)]
fn value_of(n: usize, b0: u8, b1: u8, b2: u8, b3: u8) -> u32
    ensures { result ≡ decoded n (b0 ∷ b1 ∷ b2 ∷ b3 ∷ []) }
{
    let b0 = u32::from(b0);
    let b1 = u32::from(b1);
    let b2 = u32::from(b2);
    let b3 = u32::from(b3);
    match n {
        0 => 0,
        1 => b0,
        2 => b0 % 32 * 64 + b1 % 64,
        3 => (b0 % 16 * 64 + b1 % 64) * 64 + b2 % 64,
        _ => ((b0 % 8 * 64 + b1 % 64) * 64 + b2 % 64) * 64 + b3 % 64,
    }
}

// The byte at a place, and 0 past the end.
#[inline(always)]
fn byte_at(s: &[u8], at: usize) -> u8
    ensures { result ≡ get_or s.now at 0 }
{
    s.get(at).copied().unwrap_or(0)
}

// How many bytes the form has that the slice begins with.
#[inline(always)]
fn first_of(s: &[u8]) -> Option<usize>
    ensures { SomeIff result (0 < first s.now) (first s.now) }
{
    if s.is_empty() {
        return None;
    }
    length_of(s[0], byte_at(s, 1), byte_at(s, 2), byte_at(s, 3))
}

// The value of its first n bytes.
#[inline(always)]
fn value_at(s: &[u8], n: usize) -> u32
    requires { 0 < length s.now }
    ensures { result ≡ decoded n s.now }
{
    value_of(n, s[0], byte_at(s, 1), byte_at(s, 2), byte_at(s, 3))
}

// How many bytes the form has that begins at a place.
#[inline(always)]
pub fn first_at(s: &[u8], at: usize) -> Option<usize>
    ensures { SomeIff result (0 < first (drop at s.now)) (first (drop at s.now)) }
{
    first_of(s.get(at..)?)
}

fn front(s: &[u8]) -> Option<Read>
    ensures { Reads (λ c. Begins c s.now) result }
{
    // Most of what is read is ASCII: its other bytes are not looked at.
    if 0 < s.len() && s[0] < 0x80 {
        return Some(Read {
            value: u32::from(s[0]),
            length: 1,
        });
    }
    let length = first_of(s)?;
    Some(Read {
        value: value_at(s, length),
        length,
    })
}

// How far to go back from the end to a byte that is no 10xxxxxx, at most four.
fn back(s: &[u8]) -> usize
    requires { 0 < length s.now }
    ensures { Back s.now result }
{
    for k in 1..4 {
        if k == s.len() || s[s.len() - k] / 64 != 2 {
            return k;
        }
    }
    4
}

fn end(s: &[u8]) -> Option<Read>
    ensures { Reads (λ c. Ends c s.now) result }
{
    if s.is_empty() {
        return None;
    }
    let length = back(s);
    let form = &s[s.len() - length..];
    if first_of(form)? != length {
        return None;
    }
    Some(Read {
        value: value_at(form, length),
        length,
    })
}

// The first scalar of s[from..to]. Refused: no such part, or no scalar's form begins there.
pub fn read_first(s: &[u8], from: usize, to: usize) -> Option<Read>
    ensures { Reads (λ c. Within from to s.now × Begins c (part from to s.now)) result }
{
    front(s.get(from..to)?)
}

// The last scalar of s[from..to]. Refused: no such part, or no scalar's form ends there.
pub fn read_last(s: &[u8], from: usize, to: usize) -> Option<Read>
    ensures { Reads (λ c. Within from to s.now × Ends c (part from to s.now)) result }
{
    end(s.get(from..to)?)
}
