// The game calls that make a heap and its objects, one file each.
#![tactic(auto)]

pub mod allocate;
pub mod create;
