// How many blocks a map can keep at all.
ghost use Rattle.std.specs.Prelude.{◌≡◌};
ghost use Rattle.choices.specs.Room.{space as space_of};

use crate::counts::RackCounts;
use crate::marks::yes_rack;
use site::{Node, SiteMap};

/// The space of a map: over its racks, the sum of the lesser of c and the number of the rack's yes nodes.
pub fn space<M: SiteMap>(map: &M, c: u32) -> u32
    ensures { result ≡ space_of (M.SiteMap.meaning map.now) c }
{
    let mut tally = RackCounts::new();
    // A map is asked by node numbers, and has no list of its nodes.
    for v in 0..map.nodes() {
        if let Some(rack) = yes_rack(map, Node(v)) {
            tally.add(rack);
        }
    }
    tally.capped(c)
}
