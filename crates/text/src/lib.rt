// Reading and writing the bytes of a site sheet: its lines and fields with their places, numbers, node lists and
// names lines, the reader's faults, and a writer of answer lines. Nothing here knows of sites, stores or calls.
#![tactic(auto)]

pub mod fault;
pub mod lexer;
pub mod lines;
pub mod names;
pub mod nodes;
pub mod number;
pub mod place;
pub mod split;
#[cfg(test)]
mod tests;
pub mod writer;
