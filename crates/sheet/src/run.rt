// A run of a sheet; what it does is in the module `running`.
ghost use Rattle.std.specs.Prelude.{◌≡◌};

use site::SiteMap;
use store::store::Store;
use text::lines::Lines;

/// The call lines that are yet to come, the order of their names, and the store that has had the calls before them.
#[derive(Drop)]
pub struct Run<'a, M> {
    pub(crate) lines: Lines<'a>,
    pub(crate) order: [usize; 3],
    pub(crate) store: Store<M>,
}

/// Refusal 15: the buffer is shorter than a line may be.
#[derive(Clone, Copy, PartialEq, Eq, Debug)]
pub struct ShortBuffer;

/// The number that the refusal is told by.
impl From<ShortBuffer> for u32 {
    ghost from_gives = { λ _ n. n ≡ 15 };

    fn from(_: ShortBuffer) -> u32 {
        15
    }
}
