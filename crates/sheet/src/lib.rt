// What a site sheet is answered: the lines of a run, byte for byte, and the run itself.
#![tactic(auto)]

pub mod answers;
pub mod faults;
pub mod nodes;
pub mod positions;
pub mod put;
pub mod replies;
pub mod run;
pub mod running;
pub mod start;
#[cfg(test)]
mod tests;
