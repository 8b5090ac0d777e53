// Every operation on integers of 8 bits, at every number, or every pair of them, beside the rule of `rule`. A line for each operation says at how many the two
// agree.
#![tactic(auto)]

mod rule;
mod whole;

ghost use Rattle.std.specs.Prelude.{◌≤◌};

use numbered::{Kind, Name, Operation, Part, Shape};
use std::io;
use std::io::Write;

// 1 where the library and the rule agree, 0 where not.
fn agree(kind: Kind, operation: Operation, a: u64, b: u64, c: u64) -> u64
    ensures { result ≤ 1 }
{
    let library = numbered_integers::run(kind, operation, [a, b, c, 0]);
    if library == rule::answer(kind, operation, a, b) {
        1
    } else {
        0
    }
}

// How many values an argument has.
fn values(operation: Operation, place: usize) -> u64
    ensures { result ≤ 256 }
{
    match operation.takes().get(place) {
        None => 1,
        Some(Shape::Always(Part::Truth)) => 2,
        Some(_) => 256,
    }
}

// At how many values of the third argument they agree.
fn thirds(kind: Kind, operation: Operation, a: u64, b: u64) -> u64
    ensures { result ≤ 256 }
{
    let mut count = 0;
    let end = values(operation, 2);
    for c in 0..end {
        count += agree(kind, operation, a, b, c);
    }
    count
}

fn row(kind: Kind, operation: Operation, a: u64) -> u64
    ensures { result ≤ 65536 }
{
    let mut count = 0;
    let end = values(operation, 1);
    for b in 0..end {
        count += thirds(kind, operation, a, b);
    }
    count
}

fn all(kind: Kind, operation: Operation) -> u64
    ensures { result ≤ 16777216 }
{
    let mut count = 0;
    for a in 0..256 {
        count += row(kind, operation, a);
    }
    count
}

fn operations<W: Write>(out: &mut W, kind: Kind) -> io::Result<()> {
    for operation in Operation::ON_NUMBERS {
        let name = Name::of(kind, operation);
        if name.is_there() {
            let count = all(kind, operation);
            writeln!(out, "{name} {count}")?;
        }
    }
    Ok(())
}

fn main(rt: HostRuntime) -> io::Result<()> {
    let mut out = rt.stdout();
    operations(&mut out, Kind::U8)?;
    operations(&mut out, Kind::I8)
}
