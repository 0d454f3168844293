// How many blocks a map can keep at all, and where the parity of a plan goes.
#![tactic(auto)]

mod counts;
pub mod marks;
pub mod parity;
pub mod space;
