// Blocks' lists resolved against a map: the only step that asks it, once for each listed node.
ghost use Rattle.std.specs.Prelude.{◌≡◌, ◌≤◌, [], length};
ghost use Rattle.blocks.specs.Blocks.{copies_of};
ghost use Rattle.blocks.specs.Lists.{lists_of};
ghost use Rattle.placement.specs.Resolved.{seated, Resolved};

use crate::seat::{Lists, Seat, Seats};
use blocks::block::Block;
use blocks::lists::Blocks;
use room::marks::yes_rack;
use site::SiteMap;

/// A block's yes nodes in list order, with their racks.
pub(crate) fn resolve<M: SiteMap>(map: &M, block: &Block) -> Seats
    ensures { result ≡ seated (M.SiteMap.meaning map.now) (copies_of block.now) }
{
    let mut seats = Seats::new();
    for v in block.nodes() {
        if let Some(rack) = yes_rack(map, *v) {
            let _ = seats.push(Seat { node: *v, rack });
        }
    }
    seats
}

/// The same of each of a stripe's blocks, into lists that has none yet.
// They are lent, so that they are not copied.
pub(crate) fn resolve_all<M: SiteMap>(map: &M, blocks: &Blocks, lists: &mut Lists)
    ensures lists { lists.old ≡ [] → Resolved (M.SiteMap.meaning map.now) (lists_of blocks.now) lists.new }
    ensures few { lists.old ≡ [] → length lists.new ≤ 16 }
{
    for block in blocks.as_slice() {
        let _ = lists.push(resolve(map, block));
    }
}
