// Admission: whether a stripe's blocks and an offered one have a choice, and if not, which of them crowd one another out.
ghost use Rattle.std.specs.Prelude.{◌≡◌, [], ◌∷◌, ◌++◌, MatchResult, ◌≢◌};
ghost use Rattle.choices.specs.Choice.{choices};
ghost use Rattle.choices.specs.Hall.{SomeChoice};
ghost use Rattle.blocks.specs.Blocks.{copies_of};
ghost use Rattle.blocks.specs.Lists.{lists_of};
ghost use Rattle.placement.specs.Resolved.{CrowdedOut};

use crate::resolve::{resolve, resolve_all};
use crate::search::Search;
use crate::seat::Lists;
use crate::sitting::Sitting;
use blocks::block::Block;
use blocks::lists::Blocks;
use site::SiteMap;
use site::set::NumberSet;

/// Whether a stripe's blocks and an offered one have a choice. If not, and the stripe's blocks have one, the least tight set:
/// number p − 1 for the block at position p, the offered one past the last.
pub fn admit<M: SiteMap>(map: &M, c: u32, blocks: &Blocks, offered: &Block) -> Result<(), NumberSet>
    ensures chosen { MatchResult result
        (λ _. SomeChoice (M.SiteMap.meaning map.now) c (lists_of blocks.now ++ copies_of offered.now ∷ []))
        (λ w. CrowdedOut (M.SiteMap.meaning map.now) c (lists_of blocks.now) (copies_of offered.now) w) }
    ensures listed { MatchResult result
        (λ _. choices (M.SiteMap.meaning map.now) c (lists_of blocks.now ++ copies_of offered.now ∷ []) ≢ [])
        (λ _. choices (M.SiteMap.meaning map.now) c (lists_of blocks.now ++ copies_of offered.now ∷ []) ≡ []) }
{
    let mut lists = Lists::new();
    resolve_all(map, blocks, &mut lists);
    let _ = lists.push(resolve(map, offered));
    let search = Search {
        seats: lists.as_slice(),
        c,
    };
    search.seat_all(&mut Sitting::new())
}
