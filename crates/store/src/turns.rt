// Making a store, and the calls that empty a stripe.
ghost use Rattle.std.specs.Prelude.{◌≡◌, ◌<◌, []};
ghost use Rattle.store.specs.Stripes.{empty, start, release, abandon};
ghost use Rattle.store.specs.Ledger.{put};
ghost use Rattle.store.specs.Table.{ledger_of};
ghost use Rattle.store.specs.Told.{Told};

use crate::store::Store;
use crate::stripe::Stripe;
use crate::types::{Answer, Refusal};
use site::{Rack, SiteMap};

impl<M: SiteMap> Store<M> {
    /// A store over a map, with no code and all stripes empty.
    pub fn new(map: M) -> Store<M>
        ensures map { result.map ≡ map }
        ensures ledger { ledger_of result ≡ start }
    {
        Store {
            map,
            code: None,
            stripes: [Stripe::Empty; 32],
        }
    }

    // Empties a rack's stripe: its record is lent.
    fn clear(&mut self, rack: Rack)
        requires { rack.0 < 32 }
        ensures ledger { ledger_of self.new ≡ put (ledger_of self.old) rack.0 empty }
        ensures map { self.new.map ≡ self.old.map }
    {
        let record = &mut self.stripes[rack.0 as usize];
        record.clear();
    }

    /// Empties a sealed stripe.
    pub fn release(&mut self, rack: Rack) -> Result<Answer, Refusal>
        ensures { Told (M.meaning self.old.map) self.old self.new (release rack.0) result [] [] }
    {
        self.code()?;
        // the stripe's own state is matched with the call: a form of the project, in abandon, offer and seal too
        match self.stripe(rack)? {
            Stripe::Empty | Stripe::Filling(_) => Err(Refusal::NotSealed),
            Stripe::Sealed(_, _) => {
                self.clear(rack);
                Ok(Answer::Done)
            }
        }
    }

    /// Empties a filling or sealed stripe.
    pub fn abandon(&mut self, rack: Rack) -> Result<Answer, Refusal>
        ensures { Told (M.meaning self.old.map) self.old self.new (abandon rack.0) result [] [] }
    {
        self.code()?;
        match self.stripe(rack)? {
            Stripe::Empty => Err(Refusal::StripeEmpty),
            Stripe::Filling(_) | Stripe::Sealed(_, _) => {
                self.clear(rack);
                Ok(Answer::Done)
            }
        }
    }
}
