// The table of objects: the room of its buffers, words that are cleared, its clusters, and the tests of a named object.
#![tactic(auto)]

pub mod buffers;
pub mod clusters;
pub mod named;
pub mod room;
