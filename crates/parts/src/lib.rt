// The part of a slice from one place up to and without another.
#![tactic(auto)]

#[derive(Clone, Copy, PartialEq, Eq, Debug)]
pub struct Part {
    pub from: usize,
    pub to: usize,
}
