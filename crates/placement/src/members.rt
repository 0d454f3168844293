// The members of a set of blocks, one after the other.
ghost use Rattle.std.specs.Prelude.{◌≡◌, ◌-◌};
ghost use Rattle.std.specs.Iterator.{at_most};
ghost use Rattle.std.specs.Int.Count.{count_trailing_zeros};
ghost use Rattle.placement.specs.Members.{TakesLowest};

use site::set::NumberSet;

/// Those of a set that are still to come, the lowest first.
#[derive(Clone, Copy)]
pub(crate) struct Members {
    pub(crate) left: u32,
}

impl Members {
    /// The members of a set, the lowest first.
    pub(crate) fn of(set: NumberSet) -> Members
        ensures { result.left ≡ set }
    {
        Members { left: set.into() }
    }
}

impl Iterator for Members {
    type Item = u32;

    ghost next_gives = { λ s y t. TakesLowest s.left y t.left };

    ghost remaining = { λ s. at_most (32 - count_trailing_zeros 32 s.left) };

    fn next(&mut self) -> Option<u32> {
        let left = self.left;
        if left == 0 {
            return None;
        }
        let y = left.trailing_zeros();
        // The lowest is in the set: `NumberSet::without` would only ask that again.
        self.left = left ^ (1 << y);
        Some(y)
    }
}
