// The layout of words and the control record, the lengths and the refusals, which every other crate reads and writes by.
#![tactic(auto)]

pub mod answers;
pub mod bits;
pub mod control;
pub mod limits;
pub mod refusals;
pub mod words;
