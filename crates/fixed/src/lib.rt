// Lists in fixed room, and slices that are read and written only as far as they reach. Nothing here allocates.
#![tactic(auto)]

pub mod list;
pub mod slices;
