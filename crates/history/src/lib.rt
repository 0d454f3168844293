// Whole lists of calls, sent to new stores, and what a store owes to its ledger.
#![tactic(auto)]

pub mod laws;
pub mod runs;
