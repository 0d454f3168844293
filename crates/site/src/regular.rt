// The regular map: racks of equally many nodes, all marked yes.
ghost use Rattle.std.specs.Prelude.{◌≡◌, ℕ, ◌*◌, ◌<◌, ◌≤◌, length, MatchResult};
ghost use Rattle.site.specs.Maps.{Fit, regular};
ghost use Rattle.site.specs.Limits.{regular-limits};

use crate::{Mark, NODES, Node, RACKS, Rack, SiteMap};

/// `racks` racks of `each` nodes.
#[derive(Clone, Copy)]
pub struct RegularMap {
    racks: u32,
    each: u32,
    ghost fits: { Fit racks each },
}

/// Refusal 9: the racks, the nodes of each or their product are outside the regular map's limits.
#[derive(Clone, Copy, PartialEq, Eq, Debug)]
pub struct OutsideRegular;

/// The number by which the refusal is told.
impl From<OutsideRegular> for u32 {
    ghost from_gives = { λ _ n. n ≡ 9 };

    fn from(_: OutsideRegular) -> u32 {
        9
    }
}

impl RegularMap {
    pub fn new(racks: u32, each: u32) -> Result<RegularMap, OutsideRegular>
        ensures { MatchResult result (λ m. Fit racks each × (regular m.racks m.each ≡ regular racks each)) (λ _. Fit racks each → ⊥) }
    {
        let most = u32::from(NODES);
        if racks < 1 || racks > RACKS || each < 1 || each > most || racks * each > most {
            return Err(OutsideRegular);
        }
        Ok(RegularMap { racks, each })
    }
}

impl SiteMap for RegularMap {
    ghost meaning = { λ m. regular m.racks m.each };

    ghost limits = { λ m. regular-limits m.racks m.each m.fits };

    fn nodes(&self) -> u16 {
        (self.racks * self.each) as u16
    }

    fn node(&self, v: Node) -> Option<(Rack, Mark)> {
        let v = u32::from(v.0);
        if v < self.racks * self.each {
            Some((Rack(v / self.each), Mark::Yes))
        } else {
            None
        }
    }
}
