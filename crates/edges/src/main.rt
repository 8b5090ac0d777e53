// Every operation on integers of 16, 32 and 64 bits and the size type, at the edges of its first argument crossed with those of its second.
// A line for each operation and first argument holds the answers for all second arguments. generate/edges.py works out what it must print, from
// meanings of their own.
#![tactic(auto)]

ghost use Rattle.std.specs.Prelude.{◌<◌, ◌≤◌};

use numbered::{Kind, Name, Operation, Part, Shape};
use std::io;
use std::io::Write;

// ---- the arguments, as bits

// 2^(w/2)
fn root(kind: Kind) -> u64
    ensures { (0 < result) × (result ≤ 4294967296) }
{
    match kind.width() {
        16 => 0x100,
        32 => 0x1_0000,
        _ => 0x1_0000_0000,
    }
}

fn unsigned_edge(kind: Kind, place: u64) -> u64 {
    let root = root(kind);
    let half = kind.smallest();
    match place {
        0..=3 => place,
        4 => 7,
        5 => root - 1,
        6 => root,
        7 => half - 1,
        8 => half,
        9 => half + 1,
        10 => kind.minus(2),
        _ => kind.minus(1),
    }
}

fn signed_edge(kind: Kind, place: u64) -> u64 {
    match place {
        0 => 0,
        1 => 1,
        2 => kind.minus(1),
        3 => 2,
        4 => kind.minus(2),
        5 => 7,
        6 => kind.minus(7),
        _ => large_signed_edge(kind, place),
    }
}

fn large_signed_edge(kind: Kind, place: u64) -> u64 {
    let root = root(kind);
    let half = kind.smallest();
    match place {
        7 => root - 1,
        8 => root,
        9 => kind.minus(root),
        10 => kind.minus(root + 1),
        11 => half - 2,
        12 => half - 1,
        13 => half + 1,
        _ => half,
    }
}

fn edge(kind: Kind, place: u64) -> u64 {
    if kind.is_signed() {
        signed_edge(kind, place)
    } else {
        unsigned_edge(kind, place)
    }
}

fn edges(kind: Kind) -> u64 {
    if kind.is_signed() { 15 } else { 12 }
}

fn distance(kind: Kind, place: u64) -> u64 {
    let width = kind.width();
    match place {
        0 => 0,
        1 => 1,
        2 => width - 1,
        3 => width,
        4 => width + 1,
        5 => 2 * width - 1,
        6..=8 => place + 25,
        9 => 255,
        10 => 0x8000_0000,
        _ => 0xffff_ffff,
    }
}

const DISTANCES: u64 = 12;

// ---- the answers

fn cell<W: Write>(
    out: &mut W,
    kind: Kind,
    operation: Operation,
    a: u64,
    b: u64,
    c: u64,
) -> io::Result<()> {
    let answer = numbered_integers::run(kind, operation, [a, b, c, 0]);
    show::text(out, " ")?;
    show::answer(out, Name::of(kind, operation), answer)
}

// How many values of an argument are tried.
fn values(kind: Kind, operation: Operation, place: usize) -> u64 {
    match operation.takes().get(place) {
        None => 1,
        Some(Shape::Own) => edges(kind),
        Some(Shape::Other) => edges(kind.other_sign()),
        Some(Shape::Always(Part::Truth)) => 2,
        Some(Shape::Always(_)) => DISTANCES,
    }
}

// Such a value by its number: what is no number of the kind or of the other sign is a distance.
fn value(kind: Kind, operation: Operation, place: usize, number: u64) -> u64 {
    match operation.takes().get(place) {
        None => 0,
        Some(Shape::Own) => edge(kind, number),
        Some(Shape::Other) => edge(kind.other_sign(), number),
        Some(Shape::Always(Part::Truth)) => number,
        Some(Shape::Always(_)) => distance(kind, number),
    }
}

fn cells<W: Write>(
    out: &mut W,
    kind: Kind,
    operation: Operation,
    a: u64,
    b: u64,
) -> io::Result<()> {
    for number in 0..values(kind, operation, 2) {
        cell(
            out,
            kind,
            operation,
            a,
            b,
            value(kind, operation, 2, number),
        )?;
    }
    Ok(())
}

fn seconds<W: Write>(out: &mut W, kind: Kind, operation: Operation, a: u64) -> io::Result<()> {
    for number in 0..values(kind, operation, 1) {
        cells(out, kind, operation, a, value(kind, operation, 1, number))?;
    }
    Ok(())
}

fn line<W: Write>(out: &mut W, kind: Kind, operation: Operation, a: u64) -> io::Result<()> {
    let name = Name::of(kind, operation);
    write!(out, "{name} ")?;
    show::number(out, kind, a)?;
    show::text(out, ":")?;
    seconds(out, kind, operation, a)?;
    show::text(out, "\n")
}

fn lines<W: Write>(out: &mut W, kind: Kind, operation: Operation) -> io::Result<()> {
    for place in 0..edges(kind) {
        line(out, kind, operation, edge(kind, place))?;
    }
    Ok(())
}

fn operations<W: Write>(out: &mut W, kind: Kind) -> io::Result<()> {
    for operation in Operation::ON_NUMBERS {
        if Name::of(kind, operation).is_there() {
            lines(out, kind, operation)?;
        }
    }
    Ok(())
}

fn main(rt: HostRuntime) -> io::Result<()> {
    let mut out = rt.stdout();
    for kind in Kind::ALL {
        if 8 < kind.width() {
            operations(&mut out, kind)?;
        }
    }
    Ok(())
}
