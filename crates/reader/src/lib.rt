// The three parts of a site sheet, read from bytes into values. What is wrong with them is told by the earliest fault.
#![tactic(auto)]

pub mod act;
pub mod calls;
pub mod code;
pub mod form;
pub mod head;
pub mod listing;
pub mod maps;
pub mod names;
pub mod opening;
pub mod row;
pub mod sites;
#[cfg(test)]
mod tests;
