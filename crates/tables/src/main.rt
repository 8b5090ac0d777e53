// The worked values of the promises, one line for each, as crates/tables/stdout has them: the expectation is written by hand.
#![tactic(auto)]

mod digits;
mod numbers;

use std::io;

fn main(rt: HostRuntime) -> io::Result<()> {
    let mut out = rt.stdout();
    numbers::lines(&mut out)?;
    digits::lines(&mut out)
}
