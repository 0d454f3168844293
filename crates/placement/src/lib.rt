// Whether blocks can be admitted, who crowds one out, which copies a sealed stripe keeps, and where its parity goes:
// pure functions over a map and some blocks.
#![tactic(auto)]

pub mod admit;
pub mod first;
mod members;
pub mod plan;
mod resolve;
mod search;
mod seat;
mod sitting;
#[cfg(test)]
mod tests;
