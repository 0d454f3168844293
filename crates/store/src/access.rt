// What the calls read of a store.
ghost use Rattle.std.specs.Prelude.{◌≡◌, ◌<◌, ◌≤◌, true, MatchResult};
ghost use Rattle.store.specs.Stripes.{holds, stripe};
ghost use Rattle.store.specs.Fitted.{allowed};
ghost use Rattle.store.specs.Table.{ledger_of, stripe_of};

use crate::store::Store;
use crate::stripe::Stripe;
use crate::types::Refusal;
use blocks::code::Code;
use site::{Rack, SiteMap};

impl<M: SiteMap> Store<M> {
    /// The code, once it is set up.
    pub(crate) fn code(&self) -> Result<Code, Refusal>
        ensures { MatchResult result (λ o. self.now.code ≡ Some o) (λ e. (self.now.code ≡ None) × (e ≡ Refusal.NotSetUp)) }
    {
        self.code.ok_or(Refusal::NotSetUp)
    }

    /// A rack's stripe.
    pub(crate) fn stripe(&self, rack: Rack) -> Result<&Stripe, Refusal>
        ensures { MatchResult result
            (λ x. (rack.0 < 32) × (stripe (ledger_of self.now) rack.0 ≡ stripe_of x.now) × (allowed self.now.code x.now ≡ true))
            (λ e. (32 ≤ rack.0) × (e ≡ Refusal.NoSuchRack)) }
    {
        self.stripes.get(rack.0 as usize).ok_or(Refusal::NoSuchRack)
    }

    /// Whether some stripe holds a block of this number.
    pub(crate) fn holds(&self, number: u32) -> bool
        ensures { result ≡ holds (ledger_of self.now).stripes number }
    {
        self.stripes.iter().any(|s| s.holds(number))
    }
}
