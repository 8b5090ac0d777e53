// What a line asks (docs/ASK.md has the protocol): the NAME, and the arguments that it takes. What can be asked, and what each takes, are the tables of `numbered`.
#![tactic(auto)]

pub mod arguments;
pub mod names;
