// Text as a whole: how far it is valid, how many scalars it has, where it may be split. What is no text is refused.
#![tactic(auto)]

ghost use Rattle.std.specs.Prelude.{◌≡◌, ◌≤◌, ◌<◌, cond, length, SomeIff};
ghost use Rattle.theory_answers.specs.Says.{Says, Tells};
ghost use Rattle.theory_text.specs.Text.{Valid};
ghost use Rattle.theory_text.specs.Reading.{scalars, valid_to, ReadFrom};
ghost use Rattle.theory_text.specs.Scalar.{follows};
ghost use Rattle.theory_text.specs.Boundary.{Boundary, Splits, started};
ghost use Rattle.text_valid.specs.Onward.{Onward};

use parts::Part;

// The next place to read from: past a run of ASCII, or past one scalar.
fn next_place(s: &[u8], at: usize) -> Option<usize>
    requires { at < length s.now }
    ensures { Onward s.now at result }
{
    if s[at] < 0x80 {
        return Some(text_ascii::ascii_from(s, at));
    }
    Some(at + text_read::first_at(s, at)?)
}

// The plain form of `valid_up_to`: scalar by scalar, from a place up to which all was read.
fn walk_from(s: &[u8], from: usize) -> usize
    requires { ReadFrom s.now from }
    ensures { result ≡ valid_to s.now }
{
    // By index, since a place is answered.
    let mut at = from;
    while at < s.len() {
        let Some(next) = next_place(s, at) else {
            return at;
        };
        at = next;
    }
    at
}

// How far the text is valid: the place behind the last scalar that can be read from the front.
pub fn valid_up_to(s: &[u8]) -> usize
    ensures { result ≡ valid_to s.now }
{
    if s.len() < 64 {
        if text_ascii::is_ascii(s) {
            return s.len();
        }
        return walk_from(s, 0);
    }
    walk_from(s, text_quick::text_before(s))
}

pub fn valid(s: &[u8]) -> bool
    ensures { Says result (Valid s.now) }
{
    valid_up_to(s) == s.len()
}

fn start(b: u8) -> u8
    ensures { (result ≡ cond (follows b) 0 1) × (result ≤ 1) }
{
    u8::from(b / 64 != 2)
}

// How many of a block's bytes start a scalar: few enough for one byte to count.
fn starts_in_block(block: &[u8]) -> u8
    requires { length block.now ≤ 192 }
    ensures { result ≡ started block.now }
{
    let mut n: u8 = 0;
    for byte in block {
        n += start(*byte);
    }
    n
}

fn starts_in(s: &[u8]) -> usize
    ensures { result ≡ started s.now }
{
    let mut n: usize = 0;
    for block in s.chunks(192) {
        n += starts_in_block(block) as usize;
    }
    n
}

pub fn count(s: &[u8]) -> Option<usize>
    ensures { SomeIff result (Valid s.now) (length (scalars s.now)) }
{
    if valid(s) { Some(starts_in(s)) } else { None }
}

// Whether a place of a text is a boundary; past the end there is none.
pub fn is_boundary(s: &[u8], at: usize) -> Option<bool>
    ensures { Tells result (Valid s.now) (Boundary s.now at) }
{
    if !valid(s) {
        return None;
    }
    match s.get(at) {
        Some(byte) => Some(*byte / 64 != 2),
        None => Some(at == s.len()),
    }
}

// Both parts of a text, split at a boundary. Refused: no text, past the end, or inside a scalar.
pub fn split_at(s: &[u8], at: usize) -> Option<(Part, Part)>
    ensures { SomeIff result (Splits s.now at) (record { from = 0; to = at }, record { from = at; to = length s.now }) }
{
    if is_boundary(s, at)? {
        Some((
            Part { from: 0, to: at },
            Part {
                from: at,
                to: s.len(),
            },
        ))
    } else {
        None
    }
}
