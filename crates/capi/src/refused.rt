// Why the library refuses a question, and the numbers that C is told.
ghost use Rattle.std.specs.Prelude.{◌≡◌};
ghost use Rattle.capi.specs.Numbers.{number_of};

use site::set::NumberSet;

/// C's own list of refusals, with the numbers that its header has. `Arrays`: more than 16 lists, or not eight entries to each.
/// `NotFull`: the lists are not k. `NoPlan`: there are no n nodes, for want of a choice or of space. The others are the store's
/// refusals.
#[derive(Clone, Copy)]
pub enum Refused {
    OutsideLimits,
    ListLength,
    OutsideRegular,
    NoChoice(NumberSet),
    NotFull,
    Arrays,
    NoPlan,
}

/// The number that the refusal is told by.
impl From<Refused> for u32 {
    ghost from_gives = { λ e n. n ≡ number_of e };

    fn from(refused: Refused) -> u32 {
        match refused {
            Refused::OutsideLimits => 1,
            Refused::ListLength => 3,
            Refused::OutsideRegular => 9,
            Refused::NoChoice(_) => 24,
            Refused::NotFull => 25,
            Refused::Arrays => 30,
            Refused::NoPlan => 31,
        }
    }
}
