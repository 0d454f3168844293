// Laws of stores that stand on the contracts of small functions.
ghost use Rattle.std.specs.Prelude.{◌≡◌};
ghost use Rattle.store.specs.Table.{ledger_of};

use site::SiteMap;
use store::store::Store;

/// Equal ledgers are equal stores, over equal maps: a store holds what its ledger holds, and no more.
pub fn one_store<M: SiteMap>(a: &Store<M>, b: &Store<M>)
    ensures { a.now.map ≡ b.now.map → ledger_of a.now ≡ ledger_of b.now → a.now ≡ b.now }
{}
