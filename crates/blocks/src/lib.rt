// The records that placement and the store share: a code within its limits, a block with its list of nodes, and lists of
// blocks and of nodes in fixed room.
#![tactic(auto)]

pub mod block;
pub mod blocks;
pub mod code;
pub mod lists;
