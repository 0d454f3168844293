// The store: its map, the code once it is set up, and a record for each rack's stripe.
ghost use Rattle.std.specs.Prelude.{◌≡◌, true, length};
ghost use Rattle.store.specs.Fitted.{fitted};

use crate::stripe::Stripe;
use blocks::code::Code;

/// No stripe has more than k blocks, a sealed one has k, and all are empty while there is no code.
#[derive(Drop)]
pub struct Store<M> {
    pub(crate) map: M,
    pub(crate) code: Option<Code>,
    // A plain table of records in fixed memory, as the project asks.
    pub(crate) stripes: [Stripe; 32],
    ghost full: { length stripes ≡ 32 },
    ghost within: { fitted code stripes ≡ true },
}
