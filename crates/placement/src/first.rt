// The first choice: block after block is narrowed to its earliest seat that leaves a choice for all.
ghost use Rattle.std.specs.Prelude.{◌≡◌, ◌+◌, ◌<◌, ◌≤◌, List, length, MatchBool};
ghost use Rattle.site.specs.Site.{Site};
ghost use Rattle.choices.specs.Choice.{Copies, choices};
ghost use Rattle.choices.specs.Plan.{first_of};
ghost use Rattle.blocks.specs.Lists.{lists_of, node_numbers};
ghost use Rattle.placement.specs.Seats.{node_of};
ghost use Rattle.placement.specs.Firsts.{placed, Standing, Narrows, Kept, Vain};

use crate::resolve::resolve_all;
use crate::search::Search;
use crate::seat::{Lists, Seat, alone};
use crate::sitting::{Sitting, is_at};
use blocks::lists::{Blocks, Nodes};
use fixed::slices::front;
use site::{Node, SiteMap};

/// Blocks that all sit, at most c in a rack, while one after the other is left one seat alone.
#[derive(Clone, Copy)]
pub(crate) struct Settling {
    seats: Lists,
    c: u32,
    sat: Sitting,
}

// The node of a seat; node 0 where there is none, which is never once all blocks sit.
fn node_of_seat(seat: &Option<Seat>) -> Node
    ensures { result.0 ≡ node_of seat.now }
{
    seat.map_or(Node(0), |own| own.node)
}

impl Settling {
    // Whether all blocks can sit with block i at its seat v alone; they then do, and otherwise all is as before. A yes or no:
    // there is nothing to hand on, so a `Result` with an empty error would be no plainer.
    fn try_seat(&mut self, i: u32, v: Seat) -> bool
        ensures { MatchBool result (Kept i v self.old self.new) (Vain i v self.old self.new) }
    {
        let place = i as usize;
        let Some(list) = self.seats.get(place) else {
            return false;
        };
        self.seats.set(place, alone(v));
        let had = self.sat.put(i, None);
        if is_at(had, v.node) {
            self.sat.put(i, had);
            return true;
        }
        let search = Search {
            seats: self.seats.as_slice(),
            c: self.c,
        };
        match search.extend(&mut self.sat, i) {
            Ok(()) => true,
            Err(_) => {
                self.seats.set(place, list);
                self.sat.put(i, had);
                false
            }
        }
    }

    // Narrows block i to its earliest seat that leaves a choice for all.
    fn settle(&mut self, i: u32)
        ensures { (s : Site) (c : _) (bs : List Copies) → i < length bs → Narrows s c bs i self.old → Narrows s c bs (i + 1) self.new }
    {
        let Some(list) = self.seats.get(i as usize) else {
            return;
        };
        for v in list.as_slice() {
            if self.try_seat(i, *v) {
                return;
            }
        }
    }

    // The nodes at which the blocks sit.
    fn nodes(&self) -> Nodes
        ensures value { node_numbers result ≡ placed (length self.now.seats) self.now.sat.at }
        ensures few { length (node_numbers result) ≤ 24 }
    {
        let mut nodes = Nodes::new();
        for seat in front(&self.sat.at, self.seats.len()) {
            let _ = nodes.push(node_of_seat(seat));
        }
        nodes
    }

    // The nodes at which the blocks sit once each was narrowed in turn.
    fn first(&mut self) -> Nodes
        ensures value { (s : Site) (c : _) (bs : List Copies) → Standing s c bs self.old → node_numbers result ≡ first_of (choices s c bs) }
        ensures few { length (node_numbers result) ≤ 24 }
    {
        // A block goes by its number, and its list is narrowed in place, so the lists are not walked.
        for i in 0..self.seats.len() as u32 {
            self.settle(i);
        }
        self.nodes()
    }
}

/// The first choice of some blocks: the node of each; none where they have no choice.
pub fn first_choice<M: SiteMap>(map: &M, c: u32, blocks: &Blocks) -> Nodes
    ensures value { node_numbers result ≡ first_of (choices (M.SiteMap.meaning map.now) c (lists_of blocks.now)) }
    ensures few { length (node_numbers result) ≤ 24 }
{
    let mut settling = Settling {
        seats: Lists::new(),
        c,
        sat: Sitting::new(),
    };
    resolve_all(map, blocks, &mut settling.seats);
    let search = Search {
        seats: settling.seats.as_slice(),
        c,
    };
    match search.seat_all(&mut settling.sat) {
        Ok(()) => settling.first(),
        Err(_) => Nodes::new(),
    }
}
