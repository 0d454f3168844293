// What is asked of a caller's nodes before anything else.
ghost use Rattle.std.specs.Prelude.{◌≡◌, true, false, not, map, MatchResult, ◌==◌};
ghost use Rattle.site.specs.Site.{node_rack};
ghost use Rattle.choices.specs.Choice.{apart, every};
ghost use Rattle.blocks.specs.Blocks.{numbers};
ghost use Rattle.store.specs.Stripes.{core, rest};
ghost use Rattle.store.specs.Refusals.{on_map};

use crate::types::Refusal;
use site::{Node, RACKS, Rack, SiteMap};

/// Whether a node is on the map.
pub(crate) fn on_map<M: SiteMap>(map: &M, v: Node) -> bool
    ensures { result ≡ on_map (M.meaning map.now) v.0 }
{
    map.node(v).is_some()
}

/// Whether every node is on the map.
pub(crate) fn all_on_map<M: SiteMap>(map: &M, nodes: &[Node]) -> bool
    ensures { result ≡ every (on_map (M.meaning map.now)) (numbers nodes.now) }
{
    nodes.iter().all(|v| on_map(map, *v))
}

/// Whether no node stands twice.
pub(crate) fn all_differ(nodes: &[Node]) -> bool
    ensures { result ≡ apart (numbers nodes.now) }
{
    match nodes.split_first() {
        Some((v, rest)) => !rest.contains(v) && all_differ(rest),
        None => true,
    }
}

/// A node's rack; past the last node the first number that is no rack, which the rules and the rows of a plan have there too.
pub(crate) fn rack_of<M: SiteMap>(map: &M, v: Node) -> Rack
    ensures { result.0 ≡ node_rack (M.meaning map.now) v.0 }
{
    map.node(v).map_or(Rack(RACKS), |(rack, _)| rack)
}

// The rack of the first node; of no nodes, the first number that is no rack, as the rules have it.
fn first_rack<M: SiteMap>(map: &M, nodes: &[Node]) -> Rack
    ensures { result.0 ≡ core (M.meaning map.now) (numbers nodes.now) }
{
    nodes.first().map_or(Rack(RACKS), |v| rack_of(map, *v))
}

/// The rack of the first node, where no other node lies in it.
pub(crate) fn core_rack<M: SiteMap>(map: &M, nodes: &[Node]) -> Result<Rack, Refusal>
    ensures { MatchResult result
        (λ rack. (rack.0 ≡ core (M.meaning map.now) (numbers nodes.now)) × (every (λ v. not (node_rack (M.meaning map.now) v == core (M.meaning map.now) (numbers nodes.now))) (rest (numbers nodes.now)) ≡ true))
        (λ e. (e ≡ Refusal.CoreRackAgain) × (every (λ v. not (node_rack (M.meaning map.now) v == core (M.meaning map.now) (numbers nodes.now))) (rest (numbers nodes.now)) ≡ false)) }
{
    let rack = first_rack(map, nodes);
    if nodes.iter().skip(1).all(|v| rack_of(map, *v) != rack) {
        Ok(rack)
    } else {
        Err(Refusal::CoreRackAgain)
    }
}
