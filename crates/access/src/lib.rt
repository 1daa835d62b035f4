// The game calls that read an object or set a root, one file each; they leave records, slots and clusters as they are.
#![tactic(auto)]

pub mod read;
pub mod set_root;
pub mod show;
