// A count for each rack.
ghost use Rattle.std.specs.Prelude.{◌≡◌, ℕ, ◌+◌, ◌<◌, ◌≤◌, min, replicate, slice_index, slice_set};
ghost use Rattle.choices.specs.Sums.{sum_to};

use site::{RACKS, Rack};
use std::marker::Model;

/// How many nodes of some kind each of the 32 racks has. A clause sees the list of these counts.
#[derive(Clone, Copy)]
pub(crate) struct RackCounts {
    counts: [u32; 32],
}

impl Model for RackCounts {
    ghost use Rattle.std.specs.Prelude.{◌≡◌, ℕ, List, length};

    ghost Value = { List ℕ };

    ghost view = { λ s. s.counts };

    ghost invariant = { λ s. length s.counts ≡ 32 };

    ghost inverse = { λ xs. record { counts = xs } };
}

impl RackCounts {
    /// No nodes.
    pub(crate) fn new() -> RackCounts
        ensures { result ≡ replicate 32 0 }
    {
        RackCounts {
            counts: [0; RACKS as usize],
        }
    }

    /// How many nodes a rack has.
    pub(crate) fn of(&self, rack: Rack) -> u32
        requires { rack.0 < 32 }
        ensures { result ≡ slice_index self.now rack.0 }
    {
        self.counts[rack.0 as usize]
    }

    /// One more node of a rack.
    pub(crate) fn add(&mut self, rack: Rack)
        requires rack { rack.0 < 32 }
        requires few { slice_index self.old rack.0 ≤ 256 }
        ensures { self.new ≡ slice_set self.old rack.0 (slice_index self.old rack.0 + 1) }
    {
        self.counts[rack.0 as usize] += 1;
    }

    /// How many there are in all, where no rack has more than c.
    pub(crate) fn capped(&self, c: u32) -> u32
        requires { (r : ℕ) → r < 32 → slice_index self.now r ≤ 256 }
        ensures { result ≡ sum_to 32 (λ k. min c (slice_index self.now k)) }
    {
        self.counts.iter().map(|n| c.min(*n)).sum()
    }
}
