// The plan of a sealed stripe: one kept copy of each block, then the parity nodes.
ghost use Rattle.std.specs.Prelude.{◌≡◌, ◌<◌, ◌≤◌, [], length};
ghost use Rattle.choices.specs.Plan.{planned};
ghost use Rattle.blocks.specs.Lists.{lists_of, node_numbers};

use crate::first::first_choice;
use blocks::code::Code;
use blocks::lists::{Blocks, Nodes};
use room::parity::parity;
use site::{Node, SiteMap};

/// The nodes of a stripe of up to k blocks, its parity visited from `start` on; none where there are more than k.
pub fn plan<M: SiteMap>(map: &M, code: &Code, blocks: &Blocks, start: Node) -> Nodes
    ensures planned { length (lists_of blocks.now) ≤ code.now.k
        → node_numbers result ≡ planned (M.SiteMap.meaning map.now) code.now.n code.now.k code.now.c (lists_of blocks.now) start.0 }
    ensures over { code.now.k < length (lists_of blocks.now) → node_numbers result ≡ [] }
    ensures few { length (node_numbers result) ≤ 24 }
{
    if blocks.len() > code.k as usize {
        return Nodes::new();
    }
    let mut nodes = first_choice(map, code.c, blocks);
    parity(map, code.c, (code.n - code.k) as usize, &mut nodes, start);
    nodes
}
