// The blocks of a stripe, and the nodes of a plan.
ghost use Rattle.std.specs.Prelude.{◌≡◌, map};
ghost use Rattle.choices.specs.Choice.{has};

use crate::block::Block;
use fixed::list::FixedList;
use site::Node;

/// The most blocks of a stripe, and the most nodes of a plan.
pub const BLOCKS: usize = 16;

pub const PLANNED: usize = 24;

/// A stripe's blocks, by position.
pub type Blocks = FixedList<Block, BLOCKS>;

/// The nodes of a plan.
pub type Nodes = FixedList<Node, PLANNED>;

/// Whether some block has this number.
pub fn holds(blocks: &Blocks, number: u32) -> bool
    ensures { result ≡ has number (map (λ b. b.number) blocks.now) }
{
    blocks.as_slice().iter().any(|b| b.number() == number)
}
