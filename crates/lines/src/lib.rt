// Lines of a call list: their words and numbers, the call that a line makes, and what is wrong with a line.
#![tactic(auto)]

pub mod kinds;
pub mod numbers;
pub mod parse;
pub mod words;
