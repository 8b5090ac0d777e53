// Copying a slice of bytes into the part from..to of another, by blocks of a size that the compiler knows, of which the last may begin inside the one before.
#![tactic(auto)]

ghost use Rattle.std.specs.Prelude.{◌≡◌, ◌+◌, ◌-◌, ◌≤◌, ◌<◌, length};
ghost use Rattle.theory_answers.specs.Says.{Outcome};
ghost use Rattle.theory_lists.specs.Part.{Within};
ghost use Rattle.theory_lists.specs.Written.{written};

fn copy_block(d: &mut [u8], at: usize, s: &[u8])
    requires { (length s.now ≤ 64) × (at + length s.now ≤ length d.old) }
    ensures { d.new ≡ written d.old at s.now }
{
    let n = s.len();
    let end = at + n;
    let bytes = slices_mut::held(s);
    slices_mut::put(d, at, end, &bytes[..n]);
}

// By blocks of `size` bytes; chunks_exact would copy the last twice where it is a whole one.
fn copy_by(d: &mut [u8], at: usize, s: &[u8], size: usize)
    requires { (0 < size) × (size ≤ 64) × (size ≤ length s.now) × (at + length s.now ≤ length d.old) }
    ensures { d.new ≡ written d.old at s.now }
{
    let last = s.len() - size;
    let mut i = 0;
    while i < last {
        let next = i + size;
        copy_block(d, at + i, &s[i..next]);
        i = next;
    }
    copy_block(d, at + last, &s[last..]);
}

// What is shorter goes by the plain form.
fn copy_long(d: &mut [u8], at: usize, s: &[u8])
    requires { (8 ≤ length s.now) × (at + length s.now ≤ length d.old) }
    ensures { d.new ≡ written d.old at s.now }
{
    let n = s.len();
    if 64 <= n {
        copy_by(d, at, s, 64);
    } else if 16 <= n {
        copy_by(d, at, s, 16);
    } else {
        copy_by(d, at, s, 8);
    }
}

// True; or refused, where from and to are not the ends of a part or other has another length, and nothing is written.
pub fn copy_from(s: &mut [u8], from: usize, to: usize, other: &[u8]) -> bool
    ensures { Outcome result (Within from to s.old × (length other.now ≡ to - from))
        (s.new ≡ written s.old from other.now) (s.new ≡ s.old) }
{
    if other.len() < 8 {
        return slices_mut::put(s, from, to, other);
    }
    match s.get(from..to) {
        Some(part) if part.len() == other.len() => {
            copy_long(s, from, other);
            true
        }
        _ => false,
    }
}
