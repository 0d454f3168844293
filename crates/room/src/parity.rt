// The parity nodes of a plan: all nodes are visited from the start node on, and each that is marked yes, is not taken and
// whose rack has fewer than c nodes of the plan is taken, until the plan has as many as asked.
ghost use Rattle.std.specs.Prelude.{◌≡◌, ◌-◌, ◌≤◌, min, [], ◌∷◌, ◌++◌, length};
ghost use Rattle.choices.specs.Plan.{round, parity as parity_nodes};
ghost use Rattle.blocks.specs.Lists.{node_numbers};
ghost use Rattle.room.specs.Plans.{Loaded, Visited};

use crate::counts::RackCounts;
use crate::marks::yes_rack;
use blocks::lists::{Nodes, PLANNED};
use site::{Node, SiteMap};

/// A plan that takes nodes, and how many of its nodes each rack has.
#[derive(Clone, Copy)]
pub(crate) struct Filling {
    nodes: Nodes,
    loads: RackCounts,
}

/// Which nodes a plan takes: at most c in a rack of the map, until it has `most`.
#[derive(Drop)]
struct Rule<'a, M> {
    map: &'a M,
    c: u32,
    most: usize,
    ghost few: { most ≤ 24 },
}

impl<'a, M: SiteMap> Rule<'a, M> {
    // A plan with the counts of its nodes.
    fn loaded(&self, plan: &Nodes) -> Filling
        ensures plan { result.nodes ≡ plan.now }
        ensures loads { Loaded (M.SiteMap.meaning self.now.map.now) result }
    {
        let mut loads = RackCounts::new();
        for v in plan.as_slice() {
            if let Some((rack, _)) = self.map.node(*v) {
                loads.add(rack);
            }
        }
        Filling {
            nodes: *plan,
            loads,
        }
    }

    // One more node visited.
    fn visit(&self, plan: &mut Filling, v: Node)
        requires { Loaded (M.SiteMap.meaning self.now.map.now) plan.old }
        ensures { Visited (M.SiteMap.meaning self.now.map.now) self.now.c self.now.most plan.old (v.0 ∷ []) plan.new }
    {
        if plan.nodes.len() >= self.most {
            return;
        }
        if let Some(rack) = yes_rack(self.map, v) {
            if plan.loads.of(rack) < self.c && !plan.nodes.contains(&v) {
                let _ = plan.nodes.push(v);
                plan.loads.add(rack);
            }
        }
    }
}

/// Adds up to `left` parity nodes to a plan, as far as it has room, the visit beginning at `start`.
pub fn parity<M: SiteMap>(map: &M, c: u32, left: usize, plan: &mut Nodes, start: Node)
    ensures value { node_numbers plan.new ≡ node_numbers plan.old ++ parity_nodes (M.SiteMap.meaning map.now) c (min left (24 - length (node_numbers plan.old))) (node_numbers plan.old) (round (M.SiteMap.meaning map.now) start.0) }
    ensures few { length (node_numbers plan.new) ≤ 24 }
{
    let taken = plan.len();
    let most = taken + left.min(PLANNED - taken);
    let rule = Rule { map, c, most };
    let mut filling = rule.loaded(plan);
    for v in (start.0..map.nodes()).chain(0..start.0) {
        // A plan that is full takes no further node.
        if filling.nodes.len() >= most {
            break;
        }
        rule.visit(&mut filling, Node(v));
    }
    *plan = filling.nodes;
}
