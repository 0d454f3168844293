// What choices, reach, tight sets and plans are, and the theory of them. The only code is small functions whose
// contracts are the laws.
#![tactic(auto)]

pub mod hall;
pub mod order;
pub mod plans;
