// Any of the eight calls, with the whole promise.
ghost use Rattle.std.specs.Prelude.{◌≡◌, List, length};
ghost use Rattle.store.specs.Stripes.{Call as Asked};
ghost use Rattle.store.specs.Ledger.{ledger};
ghost use Rattle.store.specs.Table.{ledger_of, call_of};
ghost use Rattle.store.specs.Told.{Told, Since};

use crate::store::Store;
use crate::types::{Answer, Call, Refusal, Row};
use site::SiteMap;

impl<M: SiteMap> Store<M> {
    /// Makes a call. Whatever calls the store has had since it was made, the answer is the one that the rules give at their
    /// ledger, and the promise is kept.
    pub fn call(&mut self, call: &Call<'_>, rows: &mut [Row]) -> Result<Answer, Refusal>
        ensures told { Told (M.meaning self.old.map) self.old self.new (call_of call.now (length rows.old)) result rows.old rows.new }
        ensures since { (h : List Asked) → ledger_of self.old ≡ ledger (M.meaning self.old.map) h → Since (M.meaning self.old.map) h (call_of call.now (length rows.old)) (ledger_of self.new) result rows.old rows.new }
    {
        match *call {
            Call::SetUp { n, k, c } => self.set_up(n, k, c),
            Call::Offer { block, nodes } => self.offer(block, nodes),
            Call::Seal { rack, start } => self.seal(rack, start),
            Call::Plan { rack } => self.plan(rack, rows),
            Call::Deletions { rack } => self.deletions(rack, rows),
            Call::Standing { rack, lost, racks } => self.standing(rack, lost, racks),
            Call::Release { rack } => self.release(rack),
            Call::Abandon { rack } => self.abandon(rack),
        }
    }
}
