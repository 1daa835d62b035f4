// The call that stores a word, and may dissolve a cluster.
#![tactic(auto)]

pub mod write;
