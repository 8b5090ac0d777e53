// Each operation held against the rule: true where it answers as it must.
use crate::rule::{Change, agree, at, changed_so, fill, is_part, least, minus, occurs, plus};
use parts::Part;

fn lengths(s: &[u8], f: usize, t: usize) -> bool {
    let ok = is_part(s, f, t);
    slices::len(s, f, t) == ok.then_some(minus(t, f))
        && slices::is_empty(s, f, t) == ok.then_some(f == t)
}

fn elements(s: &[u8], f: usize, t: usize, i: usize) -> bool {
    let ok = is_part(s, f, t);
    let some = ok & (f < t);
    let inside = ok & (i < minus(t, f));
    slices::get(s, f, t, i) == inside.then_some(at(s, plus(f, i)))
        && slices::first(s, f, t) == some.then_some(at(s, f))
        && slices::last(s, f, t) == some.then_some(at(s, minus(t, 1)))
}

fn split_right(s: &[u8], f: usize, t: usize, m: usize) -> bool {
    let ok = is_part(s, f, t) & (m <= minus(t, f));
    let middle = plus(f, m);
    let front = Part {
        from: f,
        to: middle,
    };
    let back = Part {
        from: middle,
        to: t,
    };
    slices_parts::split_at(s, f, t, m) == ok.then_some((front, back))
}

fn split_first_right(s: &[u8], f: usize, t: usize) -> bool {
    let ok = is_part(s, f, t) & (f < t);
    let rest = Part {
        from: plus(f, 1),
        to: t,
    };
    slices::split_first(s, f, t) == ok.then_some((at(s, f), rest))
}

fn sub_slice_right(s: &[u8], f: usize, t: usize) -> bool {
    let p = slices_parts::sub_slice(s, f, t);
    let n = p.len();
    if is_part(s, f, t) {
        (n == minus(t, f)) & agree(p, 0, s, f, n)
    } else {
        n == 0
    }
}

fn parts(s: &[u8], f: usize, t: usize, a: usize, e: usize) -> bool {
    let ok = is_part(s, f, t);
    let inside = ok & (a <= e) & (e <= minus(t, f));
    let range = Part {
        from: plus(f, a),
        to: plus(f, e),
    };
    let some = ok & (f < t) & (0 < a);
    let piece = Part {
        from: f,
        to: least(plus(f, a), t),
    };
    slices_parts::sub_range(s, f, t, a, e) == inside.then_some(range)
        && slices_parts::next_piece(s, f, t, a) == some.then_some(piece)
        && split_right(s, f, t, a)
        && split_first_right(s, f, t)
        && sub_slice_right(s, f, t)
}

pub fn contains(s: &[u8], f: usize, t: usize, v: u8) -> bool {
    slices_compare::contains(s, f, t, v) == is_part(s, f, t).then_some(occurs(s, f, t, v))
}

// Everything that reads one slice: x and y are places or counts, v a byte.
pub fn reads(s: &[u8], f: usize, t: usize, x: usize, y: usize, v: u8) -> bool {
    lengths(s, f, t) & elements(s, f, t, x) & parts(s, f, t, x, y) & contains(s, f, t, v)
}

// Everything that reads two.
pub fn compares(s: &[u8], f: usize, t: usize, other: &[u8]) -> bool {
    let ok = is_part(s, f, t);
    let n = minus(t, f);
    let m = other.len();
    let same = (n == m) & agree(s, f, other, 0, m);
    let begins = (m <= n) & agree(s, f, other, 0, m);
    let ends = (m <= n) & agree(s, minus(t, m), other, 0, m);
    slices_compare::equal(s, f, t, other) == ok.then_some(same)
        && slices_compare::starts_with(s, f, t, other) == ok.then_some(begins)
        && slices_compare::ends_with(s, f, t, other) == ok.then_some(ends)
}

// What an operation answered and left: where it is refused, nothing has changed.
fn left(
    ok: bool,
    must: bool,
    c: Change,
    old: &[u8],
    new: &[u8],
    f: usize,
    t: usize,
    other: &[u8],
) -> bool {
    if must {
        ok & changed_so(c, old, new, f, t, other)
    } else {
        !ok & changed_so(Change::Nothing, old, new, f, t, other)
    }
}

pub fn reverses(old: &[u8], f: usize, t: usize) -> bool {
    let n = old.len();
    if 300 < n {
        return false;
    }
    let mut space = [0u8; 300];
    let new = &mut space[0..n];
    fill(new, old);
    let ok = slices_reverse::reverse(new, f, t);
    left(ok, is_part(old, f, t), Change::Turned, old, new, f, t, old)
}

pub fn copies_within(old: &[u8], f: usize, t: usize, place: usize) -> bool {
    let n = old.len();
    if 300 < n {
        return false;
    }
    let mut space = [0u8; 300];
    let new = &mut space[0..n];
    fill(new, old);
    let ok = slices_move::copy_within(new, f, t, place);
    let must = is_part(old, f, t) & (plus(place, minus(t, f)) <= old.len());
    left(ok, must, Change::CopiedTo(place), old, new, f, t, old)
}

pub fn copies_from(old: &[u8], f: usize, t: usize, other: &[u8]) -> bool {
    let n = old.len();
    if 300 < n {
        return false;
    }
    let mut space = [0u8; 300];
    let new = &mut space[0..n];
    fill(new, old);
    let ok = slices_copy::copy_from(new, f, t, other);
    let must = is_part(old, f, t) & (minus(t, f) == other.len());
    left(ok, must, Change::Replaced, old, new, f, t, other)
}

pub fn sets(old: &[u8], f: usize, t: usize, i: usize, v: u8) -> bool {
    let n = old.len();
    if 300 < n {
        return false;
    }
    let mut space = [0u8; 300];
    let new = &mut space[0..n];
    fill(new, old);
    let ok = slices_mut::set(new, f, t, i, v);
    let must = is_part(old, f, t) & (i < minus(t, f));
    left(ok, must, Change::SetAt(i, v), old, new, f, t, old)
}
