// What a report says, decided without text and files: which calls are beside each other, where two columns first differ, what
// changed hands, and whether the survivors are the same.
#![tactic(auto)]

pub mod answers;
pub mod hands;
pub mod survivors;
pub mod turns;
