// How far text reaches, byte by byte with one table: the quick form. Blocks of ASCII between scalars, of 64 bytes or of 16, are passed over.
#![tactic(auto)]

ghost use Rattle.std.specs.Prelude.{◌≡◌, cond, ◌+◌, ◌-◌, ◌%◌, ◌≤◌, ◌<◌, length, eqb};
ghost use Rattle.theory_text.specs.Reading.{ReadFrom};
ghost use Rattle.theory_text.specs.Table.{After};
ghost use Rattle.theory_text.specs.Automaton.{step};
ghost use Rattle.text_quick.specs.Shift.{table, state, Good, Moves};

mod table;

use table::SHIFT;

fn next(t: &[u64; 256], b: u8, x: u64) -> u64
    requires { (t.now ≡ table) × Good x }
    ensures { Good result × (state result ≡ step (state x) b) }
{
    t[b as usize] >> (x % 64)
}

fn bytes(t: &[u64; 256], s: &[u8], from: usize, to: usize, x: u64) -> u64
    requires { (t.now ≡ table) × (Good x × ((from ≤ to) × (to ≤ length s.now))) }
    ensures { Moves s.now from (to - from) x result }
{
    let mut y = x;
    let mut i = from;
    while i < to {
        y = next(t, s[i], y);
        i += 1;
    }
    y
}

fn quarter(t: &[u64; 256], s: &[u8], from: usize, x: u64) -> u64
    requires { (t.now ≡ table) × (Good x × (from + 16 ≤ length s.now)) }
    ensures { Moves s.now from 16 x result }
{
    if x % 64 == 0 && text_ascii::ascii_block(s, from, 16) {
        return 0;
    }
    bytes(t, s, from, from + 16, x)
}

// Where a block is not all ASCII, only the quarters that are not go byte by byte.
fn block(t: &[u64; 256], s: &[u8], from: usize, x: u64) -> u64
    requires { (t.now ≡ table) × (Good x × (from + 64 ≤ length s.now)) }
    ensures { Moves s.now from 64 x result }
{
    if x % 64 == 0 && text_ascii::ascii_block(s, from, 64) {
        return 0;
    }
    let x1 = quarter(t, s, from, x);
    let x2 = quarter(t, s, from + 16, x1);
    let x3 = quarter(t, s, from + 32, x2);
    quarter(t, s, from + 48, x3)
}

// The later place, where the state is between two scalars.
fn later(x: u64, next: usize, place: usize) -> usize
    ensures { result ≡ cond (eqb (x % 64) 0) next place }
{
    if x % 64 == 0 { next } else { place }
}

// A place from which on s is left to read: the end, where all of it is text.
pub fn text_before(s: &[u8]) -> usize
    ensures { ReadFrom s.now result }
{
    let t = SHIFT;
    let mut x = 0;
    let mut i = 0;
    let mut place = 0;
    // By index, since a place is answered.
    while 64 <= s.len() - i {
        x = block(&t, s, i, x);
        i += 64;
        place = later(x, i, place);
        if x % 64 == 48 {
            return place;
        }
    }
    x = bytes(&t, s, i, s.len(), x);
    later(x, s.len(), place)
}
