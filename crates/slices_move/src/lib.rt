// Moving the part from..to of a slice of bytes within the slice, by blocks of a size that the compiler knows. A block is read whole before any of it is written;
// the one that may reach into another is held meanwhile.
#![tactic(auto)]

ghost use Rattle.std.specs.Prelude.{◌≡◌, ◌+◌, ◌-◌, ◌≤◌, ◌<◌, length};
ghost use Rattle.theory_answers.specs.Says.{Outcome};
ghost use Rattle.theory_lists.specs.Part.{part, Within};
ghost use Rattle.theory_lists.specs.Written.{written};

fn move_block(d: &mut [u8], from: usize, to: usize, at: usize)
    requires { Within from to d.old × (to - from ≤ 64) × (at + (to - from) ≤ length d.old) }
    ensures { d.new ≡ written d.old at (part from to d.old) }
{
    let n = to - from;
    let end = at + n;
    let bytes = slices_mut::held(&d[from..to]);
    slices_mut::put(d, at, end, &bytes[..n]);
}

// The loops go by places, since they read and write one slice.

// From the front, for a place that is not behind: what is still to be read is not written yet.
fn move_from_front(d: &mut [u8], from: usize, to: usize, at: usize, size: usize)
    requires { Within from to d.old × (at ≤ from) × (0 < size) × (size ≤ 64) × (size ≤ to - from) }
    ensures { d.new ≡ written d.old at (part from to d.old) }
{
    let last = to - size;
    let bytes = slices_mut::held(&d[last..to]);
    let mut i = from;
    let mut k = at;
    while i < last {
        let next = i + size;
        move_block(d, i, next, k);
        i = next;
        k += size;
    }
    let there = at + (last - from);
    let end = there + size;
    slices_mut::put(d, there, end, &bytes[..size]);
}

// From the back, for a place that is not before.
fn move_from_back(d: &mut [u8], from: usize, to: usize, at: usize, size: usize)
    requires { Within from to d.old × (from ≤ at) × (at + (to - from) ≤ length d.old) × (0 < size) × (size ≤ 64) × (size ≤ to - from) }
    ensures { d.new ≡ written d.old at (part from to d.old) }
{
    let first = from + size;
    let bytes = slices_mut::held(&d[from..first]);
    let mut i = to;
    let mut k = at + (to - from);
    while first < i {
        let next = i - size;
        k -= size;
        move_block(d, next, i, k);
        i = next;
    }
    let end = at + size;
    slices_mut::put(d, at, end, &bytes[..size]);
}

// By the largest blocks that the part has, to a place that is not behind.
fn move_towards_front(d: &mut [u8], from: usize, to: usize, at: usize)
    requires { Within from to d.old × (at ≤ from) × (from < to) }
    ensures { d.new ≡ written d.old at (part from to d.old) }
{
    let n = to - from;
    if 64 <= n {
        move_from_front(d, from, to, at, 64);
    } else if 16 <= n {
        move_from_front(d, from, to, at, 16);
    } else if 8 <= n {
        move_from_front(d, from, to, at, 8);
    } else {
        move_from_front(d, from, to, at, 1);
    }
}

// And to a place that is not before.
fn move_towards_back(d: &mut [u8], from: usize, to: usize, at: usize)
    requires { Within from to d.old × (from ≤ at) × (at + (to - from) ≤ length d.old) × (from < to) }
    ensures { d.new ≡ written d.old at (part from to d.old) }
{
    let n = to - from;
    if 64 <= n {
        move_from_back(d, from, to, at, 64);
    } else if 16 <= n {
        move_from_back(d, from, to, at, 16);
    } else if 8 <= n {
        move_from_back(d, from, to, at, 8);
    } else {
        move_from_back(d, from, to, at, 1);
    }
}

// The part goes to place `at`, counted from the start of s, as if all of it had been read before anything is written. True; or refused, where from and to are not
// the ends of a part or the copy would run past the end, and nothing is written.
pub fn copy_within(s: &mut [u8], from: usize, to: usize, at: usize) -> bool
    ensures { Outcome result (Within from to s.old × (at + (to - from) ≤ length s.old))
        (s.new ≡ written s.old at (part from to s.old)) (s.new ≡ s.old) }
{
    // By two tests of its own: with `get` the registers for the loops are saved before them, and a refusal takes three times as long.
    if to < from {
        return false;
    }
    if s.len() < to {
        return false;
    }
    let n = to - from;
    if s.len() - n < at {
        return false;
    }
    if n == 0 {
        return true;
    }
    if at <= from {
        move_towards_front(s, from, to, at);
    } else {
        move_towards_back(s, from, to, at);
    }
    true
}
