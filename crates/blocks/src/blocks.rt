// Making a block, and reading it.
ghost use Rattle.std.specs.Prelude.{◌≡◌, ◌≤◌, length, MatchOption};
ghost use Rattle.blocks.specs.Blocks.{copies_of, numbers, blank_block};

use crate::block::{Block, FEWEST};
use fixed::list::{Blank, FixedList};
use site::Node;

impl Block {
    /// The block of a list of 2 to 8 nodes.
    pub fn new(number: u32, nodes: &[Node]) -> Option<Block>
        ensures { MatchOption result ((2 ≤ length nodes.now) × (length nodes.now ≤ 8) → ⊥) (λ b. (b.number ≡ number) × (copies_of b ≡ numbers nodes.now)) }
    {
        if nodes.len() < FEWEST {
            return None;
        }
        let nodes = FixedList::try_from(nodes).ok()?;
        Some(Block { number, nodes })
    }

    pub fn number(&self) -> u32
        ensures { result ≡ self.now.number }
    {
        self.number
    }

    /// The nodes that hold its copies, in the writer's order.
    pub fn nodes(&self) -> &[Node]
        ensures value { numbers result.now ≡ copies_of self.now }
        ensures few { length result.now ≤ 8 }
    {
        self.nodes.as_slice()
    }
}

/// A block that stands in unused places of a list.
impl Blank for Block {
    ghost blank = { blank_block };

    fn blank() -> Block {
        let mut nodes = FixedList::new();
        let _ = nodes.push(Node(0));
        let _ = nodes.push(Node(0));
        Block { number: 0, nodes }
    }
}
