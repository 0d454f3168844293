// What is read of a stripe's record, and what is done to one that is lent.
ghost use Rattle.std.specs.Prelude.{◌≡◌, ◌<◌, false, [], ◌∷◌, ◌++◌, map, length, MatchResult};
ghost use Rattle.choices.specs.Choice.{has};
ghost use Rattle.blocks.specs.Lists.{node_numbers};
ghost use Rattle.store.specs.Stripes.{empty, filling, sealed, blocks_of, is_sealed};
ghost use Rattle.store.specs.Table.{held_of, helds_of, stripe_of};

use crate::stripe::Stripe;
use crate::types::Refusal;
use blocks::block::Block;
use blocks::lists::{Blocks, Nodes, holds};

impl Stripe {
    /// Whether one of its blocks has this number.
    pub(crate) fn holds(&self, number: u32) -> bool
        ensures { result ≡ has number (map (λ b. b.number) (blocks_of (stripe_of self.now))) }
    {
        match self {
            Stripe::Empty => false,
            Stripe::Filling(blocks) | Stripe::Sealed(blocks, _) => holds(blocks, number),
        }
    }

    /// Its blocks by position.
    pub(crate) fn blocks(&self) -> Blocks
        ensures { helds_of result ≡ blocks_of (stripe_of self.now) }
    {
        match self {
            Stripe::Empty => Blocks::new(),
            Stripe::Filling(blocks) | Stripe::Sealed(blocks, _) => *blocks,
        }
    }

    /// The blocks and the plan, if it is sealed.
    pub(crate) fn sealed(&self) -> Result<(&Blocks, &Nodes), Refusal>
        ensures { MatchResult result
            (λ x. self.now ≡ Stripe.Sealed x.0.now x.1.now)
            (λ e. (is_sealed (stripe_of self.now) ≡ false) × (e ≡ Refusal.NotSealed)) }
    {
        match self {
            Stripe::Empty | Stripe::Filling(_) => Err(Refusal::NotSealed),
            Stripe::Sealed(blocks, planned) => Ok((blocks, planned)),
        }
    }

    /// One more block at the end.
    pub(crate) fn add(&mut self, block: Block)
        requires { length (blocks_of (stripe_of self.old)) < 16 }
        ensures { stripe_of self.new ≡ filling (blocks_of (stripe_of self.old) ++ held_of block ∷ []) }
    {
        let mut blocks = self.blocks();
        blocks.push(block).unwrap();
        *self = Stripe::Filling(blocks);
    }

    /// The same blocks, sealed with a plan.
    pub(crate) fn seal(&mut self, plan: Nodes)
        ensures { stripe_of self.new ≡ sealed (blocks_of (stripe_of self.old)) (node_numbers plan) }
    {
        *self = Stripe::Sealed(self.blocks(), plan);
    }

    /// No blocks and no plan.
    pub(crate) fn clear(&mut self)
        ensures { stripe_of self.new ≡ empty }
    {
        *self = Stripe::Empty;
    }
}
