// The nodes of a map that may keep a block.
ghost use Rattle.std.specs.Prelude.{◌≡◌, ◌<◌, true, false, MatchOption};
ghost use Rattle.site.specs.Site.{keeps, node_rack};

use site::{Mark, Node, Rack, SiteMap};

/// The rack of a node that is marked yes.
pub fn yes_rack<M: SiteMap>(map: &M, v: Node) -> Option<Rack>
    ensures { MatchOption result
        (keeps (M.SiteMap.meaning map.now) v.0 ≡ false)
        (λ rack. (keeps (M.SiteMap.meaning map.now) v.0 ≡ true) × (node_rack (M.SiteMap.meaning map.now) v.0 ≡ rack.0) × (rack.0 < 32)) }
{
    match map.node(v) {
        Some((rack, Mark::Yes)) => Some(rack),
        _ => None,
    }
}
