// One store over one map for life: its code, the 32 stripes, the eight calls, and the promise over any list of calls.
#![tactic(auto)]

pub mod access;
pub mod calls;
pub mod checks;
pub mod offers;
pub mod reads;
pub mod records;
pub mod rows;
pub mod setups;
pub mod store;
pub mod stripe;
pub mod turns;
pub mod types;
