// The names nearest to one that does not exist: those that share most of its beginning and its end, and of these the shortest.
ghost use Rattle.std.specs.Prelude.{◌≤◌, length, IfSome};

use crate::said;
use numbered::{Group, Name, Operation};
use std::io::Write;
use std::{io, mem};

// No name is longer.
const MOST: usize = 64;

// A name, and how near it is: more where more bytes are shared, and then where it is shorter.
#[derive(Clone, Copy)]
struct Near {
    name: Name,
    shared: usize,
    length: usize,
}

impl Near {
    fn is_behind(self, other: Near) -> bool {
        self.shared < other.shared || self.shared == other.shared && other.length < self.length
    }
}

// The nearest first, and of those that are as near the first.
type Nearest = [Option<Near>; 3];

pub fn tell<W: Write>(out: &mut W, asked: &[u8]) -> io::Result<()> {
    match nearest(asked) {
        [None, ..] => said::text(out, "; --help lists the names\n"),
        found => listed(out, found),
    }
}

fn listed<W: Write>(out: &mut W, found: Nearest) -> io::Result<()> {
    let mut before = "; near it: ";
    for near in found {
        if let Some(Near { name, .. }) = near {
            said::text(out, before)?;
            write!(out, "{name}")?;
            before = ", ";
        }
    }
    said::text(out, "\n")
}

fn nearest(asked: &[u8]) -> Nearest {
    let mut found = [None; 3];
    for group in Group::ALL {
        for operation in Operation::ALL {
            let name = Name { group, operation };
            if let Some(near) = nearness(asked, name) {
                insert(&mut found, near);
            }
        }
    }
    found
}

fn insert(found: &mut Nearest, near: Near) {
    let mut left = near;
    let mut is_in = false;
    for place in found.iter_mut() {
        match place {
            None => {
                *place = Some(left);
                return;
            }
            // What stood there goes one place on, and all behind it with it.
            Some(other) if is_in || other.is_behind(left) => {
                mem::swap(other, &mut left);
                is_in = true;
            }
            Some(_) => {}
        }
    }
}

// None where there is no such name, or half of what was asked is not shared.
fn nearness(asked: &[u8], name: Name) -> Option<Near>
    ensures { IfSome result (λ near. (near.shared ≤ 128) × (near.length ≤ 64)) }
{
    if !name.is_there() {
        return None;
    }
    let mut room = [0u8; MOST];
    let length = written(name, &mut room);
    let text = room.get(..length)?;
    let front = shared_front(asked, text);
    let back = shared_back(asked.get(front..)?, text.get(front..)?);
    let shared = front.saturating_add(back);
    (asked.len() / 2 < shared).then_some(Near {
        name,
        shared,
        length,
    })
}

// The name into the start of a room; its length.
fn written(name: Name, room: &mut [u8]) -> usize {
    let dot = spelled::words(room, 0, name.group.name());
    let behind = spelled::words(room, dot, ".");
    spelled::words(room, behind, name.operation.name())
}

// How many bytes both begin with.
fn shared_front(a: &[u8], b: &[u8]) -> usize
    ensures { (result ≤ length a.now) × (result ≤ length b.now) }
{
    a.iter().zip(b).take_while(|(x, y)| x == y).count()
}

// How many bytes both end with.
fn shared_back(a: &[u8], b: &[u8]) -> usize
    ensures { (result ≤ length a.now) × (result ≤ length b.now) }
{
    a.iter()
        .rev()
        .zip(b.iter().rev())
        .take_while(|(x, y)| x == y)
        .count()
}
