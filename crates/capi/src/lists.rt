// Blocks' lists in flat arrays: eight entries to a block, of which its length says how many are listed.
ghost use Rattle.std.specs.Prelude.{◌≡◌, [], length, MatchResult};
ghost use Rattle.blocks.specs.Blocks.{copies_of};
ghost use Rattle.capi.specs.declared.refused.Refused.TheVariants.{ListLength};
ghost use Rattle.capi.specs.Lists.{Sized, Read, read_into};

use crate::refused::Refused;
use blocks::block::Block;
use blocks::lists::{BLOCKS, Blocks};
use fixed::list::FixedList;
use sheet::nodes::as_nodes;
use site::Node;

/// The lists of a question, as C gives them.
#[derive(Clone, Copy)]
pub(crate) struct Lists<'a> {
    pub(crate) nodes: &'a [u16],
    pub(crate) lens: &'a [u8],
}

/// The block of a list of 2 to 8 nodes; its number is 0, since none is asked about.
pub(crate) fn read_block(list: &[u16]) -> Result<Block, Refused>
    ensures { MatchResult result
        (λ b. Sized (length list.now) × (copies_of b ≡ list.now))
        (λ e. (e ≡ ListLength) × (Sized (length list.now) → ⊥)) }
{
    // One node more than a block has, so that a longer list stays too long.
    let nodes: FixedList<Node, 9> = as_nodes(list);
    Block::new(0, nodes.as_slice()).ok_or(Refused::ListLength)
}

impl Lists<'_> {
    /// The blocks of the lists, in order, into a list that has none yet.
    // It is lent, so that it is not copied.
    pub(crate) fn read(&self, blocks: &mut Blocks) -> Result<(), Refused>
        ensures { blocks.old ≡ [] → Read self.now.nodes.now self.now.lens.now (read_into result blocks.new) }
    {
        if self.lens.len() > BLOCKS || self.nodes.len() != 8 * self.lens.len() {
            return Err(Refused::Arrays);
        }
        for (i, len) in self.lens.iter().enumerate() {
            let entries = &self.nodes[8 * i..];
            let list = entries.get(..usize::from(*len)).ok_or(Refused::ListLength)?;
            let _ = blocks.push(read_block(list)?);
        }
        Ok(())
    }
}
