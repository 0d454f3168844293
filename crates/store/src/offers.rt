// Offering a block, and sealing a stripe.
ghost use Rattle.std.specs.Prelude.{◌≡◌, ◌<◌, [], length};
ghost use Rattle.blocks.specs.Blocks.{numbers};
ghost use Rattle.store.specs.Stripes.{offer, seal, stripe, blocks_of};
ghost use Rattle.store.specs.Table.{held_of, ledger_of};
ghost use Rattle.store.specs.Told.{Told, Tried};

use crate::checks::{all_differ, all_on_map, core_rack, on_map};
use crate::store::Store;
use crate::stripe::Stripe;
use crate::types::{Answer, Refusal};
use blocks::block::Block;
use blocks::code::Code;
use placement::admit::admit;
use placement::plan::plan;
use site::{Node, Rack, SiteMap};

impl<M: SiteMap> Store<M> {
    // Adds a block to a stripe, whose blocks are below k, if that leaves a choice: its record is lent.
    fn add(&mut self, code: Code, rack: Rack, block: Block) -> Result<Answer, Refusal>
        requires coded { self.old.code ≡ Some code }
        requires near { rack.0 < 32 }
        requires below { length (blocks_of (stripe (ledger_of self.old) rack.0)) < code.k }
        ensures { Tried (M.meaning self.old.map) code.c rack.0 (held_of block) self.old self.new result }
    {
        let own = self.stripe(rack)?.blocks();
        admit(&self.map, code.c(), &own, &block).map_err(Refusal::NoChoice)?;
        let record = &mut self.stripes[rack.0 as usize];
        record.add(block);
        Ok(Answer::Position(own.len() as u32 + 1))
    }

    /// Offers a block with the nodes that hold its copies.
    pub fn offer(&mut self, number: u32, nodes: &[Node]) -> Result<Answer, Refusal>
        ensures { Told (M.meaning self.old.map) self.old self.new (offer number (numbers nodes.now)) result [] [] }
    {
        let code = self.code()?;
        let block = Block::new(number, nodes).ok_or(Refusal::ListLength)?;
        if !all_on_map(&self.map, nodes) {
            return Err(Refusal::OffMap);
        }
        if !all_differ(nodes) {
            return Err(Refusal::NodeTwice);
        }
        let rack = core_rack(&self.map, nodes)?;
        if self.holds(number) {
            return Err(Refusal::BlockHeld);
        }
        match self.stripe(rack)? {
            Stripe::Empty => self.add(code, rack, block),
            Stripe::Filling(own) => {
                if own.len() >= code.k() as usize {
                    return Err(Refusal::StripeFull);
                }
                self.add(code, rack, block)
            }
            Stripe::Sealed(_, _) => Err(Refusal::StripeFull),
        }
    }

    /// Seals a filling stripe of k blocks, its parity visited from the start node on, and notes its plan.
    pub fn seal(&mut self, rack: Rack, start: Node) -> Result<Answer, Refusal>
        ensures { Told (M.meaning self.old.map) self.old self.new (seal rack.0 start.0) result [] [] }
    {
        let code = self.code()?;
        let found = *self.stripe(rack)?;
        if !on_map(&self.map, start) {
            return Err(Refusal::OffMap);
        }
        match found {
            Stripe::Empty => Err(Refusal::StripeBelowK),
            Stripe::Filling(blocks) => {
                if blocks.len() < code.k() as usize {
                    return Err(Refusal::StripeBelowK);
                }
                let nodes = plan(&self.map, &code, &blocks, start);
                let record = &mut self.stripes[rack.0 as usize];
                record.seal(nodes);
                Ok(Answer::Done)
            }
            Stripe::Sealed(_, _) => Err(Refusal::Sealed),
        }
    }
}
