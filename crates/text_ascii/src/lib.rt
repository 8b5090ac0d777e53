// Bytes below 0x80, by blocks of a size that the compiler knows.
#![tactic(auto)]

ghost use Rattle.std.specs.Prelude.{◌≡◌, true, ◌+◌, ◌≤◌, ◌<◌, length};
ghost use Rattle.theory_answers.specs.Says.{Says};
ghost use Rattle.theory_lists.specs.Part.{part};
ghost use Rattle.theory_text.specs.Ascii.{Ascii, AsciiRun};

// Every byte is looked at, so that many are looked at at once.
fn all(s: &[u8]) -> bool
    ensures { Says result (Ascii s.now) }
{
    let mut all = true;
    for byte in s {
        all &= *byte < 0x80;
    }
    all
}

// By blocks of `size` bytes, of which the last may begin inside the one before: by index, as chunks_exact takes 1.5 times as long at 4 KiB.
fn all_by(s: &[u8], size: usize) -> bool
    requires { (0 < size) × (size ≤ length s.now) }
    ensures { Says result (Ascii s.now) }
{
    let last = s.len() - size;
    let mut i = 0;
    while i < last {
        let next = i + size;
        if !all(&s[i..next]) {
            return false;
        }
        i = next;
    }
    all(&s[last..])
}

pub fn is_ascii(s: &[u8]) -> bool
    ensures { Says result (Ascii s.now) }
{
    let n = s.len();
    if 64 <= n {
        all_by(s, 64)
    } else if 16 <= n {
        all_by(s, 16)
    } else if 8 <= n {
        all_by(s, 8)
    } else {
        all(s)
    }
}

// True only where `size` bytes from a place on are there and ASCII.
pub fn ascii_block(s: &[u8], from: usize, size: usize) -> bool
    ensures { result ≡ true → (from + size ≤ length s.now) × Ascii (part from (from + size) s.now) }
{
    match s.get(from..).and_then(|rest| rest.get(..size)) {
        Some(block) => all(block),
        None => false,
    }
}

// The first place from `from` on where no ASCII stands, or the end.
pub fn ascii_from(s: &[u8], from: usize) -> usize
    ensures { AsciiRun s.now from result }
{
    // By index, since a place is answered, also one past the end.
    let mut i = from;
    while ascii_block(s, i, 64) {
        i += 64;
    }
    while i < s.len() && s[i] < 0x80 {
        i += 1;
    }
    i
}
