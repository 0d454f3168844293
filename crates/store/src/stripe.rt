// A rack's stripe record.
use blocks::lists::{Blocks, Nodes};

/// Empty, filling with some blocks, or sealed with its blocks and the nodes of its plan.
#[derive(Clone, Copy)]
pub enum Stripe {
    Empty,
    Filling(Blocks),
    Sealed(Blocks, Nodes),
}
