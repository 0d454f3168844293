// A block: its number and the nodes that hold its copies.
ghost use Rattle.std.specs.Prelude.{◌≤◌, length};

use fixed::list::FixedList;
use site::Node;

/// The fewest and the most copies of a block.
pub const FEWEST: usize = 2;

pub const COPIES: usize = 8;

/// A block's number and its list of 2 to 8 nodes.
#[derive(Clone, Copy)]
pub struct Block {
    pub(crate) number: u32,
    pub(crate) nodes: FixedList<Node, COPIES>,
    ghost enough: { 2 ≤ length nodes },
    ghost few: { length nodes ≤ 8 },
}
