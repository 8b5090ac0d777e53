// The words of a line, and the first place of a byte.
#![tactic(auto)]

pub mod line;
pub mod places;
