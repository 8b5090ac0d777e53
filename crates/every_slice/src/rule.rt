// What is right, byte by byte: a rule that knows nothing of how the operations work.

pub fn at(s: &[u8], i: usize) -> u8 {
    if i < s.len() { s[i] } else { 0 }
}

pub fn plus(a: usize, b: usize) -> usize {
    if b <= usize::MAX - a {
        a + b
    } else {
        usize::MAX
    }
}

pub fn minus(a: usize, b: usize) -> usize {
    if b <= a { a - b } else { 0 }
}

pub fn least(a: usize, b: usize) -> usize {
    if a < b { a } else { b }
}

pub fn is_part(s: &[u8], f: usize, t: usize) -> bool {
    (f <= t) & (t <= s.len())
}

// The first n bytes, and those from place f on.
pub fn front(s: &[u8], n: usize) -> &[u8] {
    if s.len() < n {
        return s;
    }
    &s[0..n]
}

pub fn back(s: &[u8], f: usize) -> &[u8] {
    if s.len() < f {
        return s;
    }
    &s[f..]
}

// The n bytes of a from place f on and those of b from place g on are the same.
pub fn agree(a: &[u8], f: usize, b: &[u8], g: usize, n: usize) -> bool {
    let mut k = 0;
    while k < n {
        if at(a, plus(f, k)) != at(b, plus(g, k)) {
            return false;
        }
        k += 1;
    }
    true
}

pub fn occurs(s: &[u8], f: usize, t: usize, v: u8) -> bool {
    let mut k = f;
    while k < t {
        if at(s, k) == v {
            return true;
        }
        k += 1;
    }
    false
}

// What an operation does to the part f..t: nothing, reverse it, replace it by another, copy it to a place, set the element at a place of it.
#[derive(Clone, Copy)]
pub enum Change {
    Nothing,
    Turned,
    Replaced,
    CopiedTo(usize),
    SetAt(usize, u8),
}

// The byte at place k afterwards.
pub fn after(c: Change, old: &[u8], f: usize, t: usize, other: &[u8], k: usize) -> u8 {
    match c {
        Change::Nothing => at(old, k),
        Change::Turned => {
            if (f <= k) & (k < t) {
                at(old, plus(f, minus(minus(t, 1), k)))
            } else {
                at(old, k)
            }
        }
        Change::Replaced => {
            if (f <= k) & (k < t) {
                at(other, minus(k, f))
            } else {
                at(old, k)
            }
        }
        Change::CopiedTo(place) => {
            if (place <= k) & (minus(k, place) < minus(t, f)) {
                at(old, plus(f, minus(k, place)))
            } else {
                at(old, k)
            }
        }
        Change::SetAt(i, v) => if k == plus(f, i) { v } else { at(old, k) },
    }
}

pub fn changed_so(c: Change, old: &[u8], new: &[u8], f: usize, t: usize, other: &[u8]) -> bool {
    if old.len() != new.len() {
        return false;
    }
    let mut k = 0;
    while k < old.len() {
        if at(new, k) != after(c, old, f, t, other, k) {
            return false;
        }
        k += 1;
    }
    true
}

// As much of old as new has room for.
pub fn fill(new: &mut [u8], old: &[u8]) {
    let mut k = 0;
    while k < new.len() {
        new[k] = at(old, k);
        k += 1;
    }
}
