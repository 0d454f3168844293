// What the definitions of the reader and of a run owe: each law stands on the contract of a small function.
#![tactic(auto)]

pub mod lines;
pub mod reading;
