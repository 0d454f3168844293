// Where the blocks sit, and for each rack the set of the blocks that sit there: so that a search need not look at every block
// to know who is in a rack.
ghost use Rattle.std.specs.Prelude.{◌≡◌, ℕ, ◌/◌, ◌%◌, ◌<◌, Bool, true, ◌&&◌, ◌||◌, ◌==◌, not, Some, None, length, IsTrue, set, slice_index, slice_set};
ghost use Rattle.site.specs.Words.{member};
ghost use Rattle.placement.specs.Seats.{seat_of, lies_at, lies_in, noted, has_noted, Holder, Blockers, shares};

use crate::members::Members;
use crate::seat::{MOST, Seat};
use site::set::NumberSet;
use site::{Node, Rack};

/// The place of a rack's set. Racks are below 32.
fn slot(rack: Rack) -> usize
    ensures { (result ≡ rack.0 % 32) × (result < 32) }
{
    (rack.0 % 32) as usize
}

// Block x leaves the set of the rack of its seat. Its twin `join` differs in what it does to the set, and so in its law.
fn leave(racks: &mut [NumberSet], x: u32, seat: Option<Seat>)
    requires { length racks.old ≡ 32 }
    ensures { (r k : ℕ) → r < 32 → member (slice_index racks.new r) k ≡ (member (slice_index racks.old r) k && not (k == x && lies_in r seat)) }
{
    if let Some(v) = seat {
        let r = slot(v.rack);
        racks[r] = racks[r].without(x);
    }
}

// Block x joins the set of the rack of its seat.
fn join(racks: &mut [NumberSet], x: u32, seat: Option<Seat>)
    requires { (length racks.old ≡ 32) × (x < 32) }
    ensures { (r k : ℕ) → r < 32 → member (slice_index racks.new r) k ≡ (member (slice_index racks.old r) k || (k == x && lies_in r seat)) }
{
    if let Some(v) = seat {
        let r = slot(v.rack);
        racks[r] = racks[r].with(x);
    }
}

/// The place of a node's set, of 32 nodes each. Nodes of a map are below 256.
fn shelf(node: Node) -> usize
    ensures { (result ≡ node.0 / 32 % 8) × (result < 8) }
{
    usize::from(node.0 / 32 % 8)
}

// The node of a seat joins its set.
fn note(sets: &mut [NumberSet], seat: Option<Seat>)
    requires { length sets.old ≡ 8 }
    ensures kept { (u : ℕ) → noted sets.old u ≡ true → noted sets.new u ≡ true }
    ensures own { has_noted sets.new seat ≡ true }
{
    if let Some(v) = seat {
        let i = shelf(v.node);
        sets[i] = sets[i].with(u32::from(v.node.0 % 32));
    }
}

/// Whether the seat that a block has, if it has one, is at a node.
pub(crate) fn is_at(seat: Option<Seat>, node: Node) -> bool
    ensures { result ≡ lies_at node.0 seat }
{
    seat.is_some_and(|own| own.node == node)
}

/// Where up to 17 blocks sit.
#[derive(Clone, Copy)]
pub(crate) struct Sitting {
    pub(crate) at: [Option<Seat>; MOST],
    // In fixed memory: a search allocates nothing.
    racks: [NumberSet; 32],
    // The nodes where a block sits or has sat: at no other node is there one, which is told without a look at the blocks.
    nodes: [NumberSet; 8],
    ghost places: { length at ≡ 17 },
    ghost full: { length racks ≡ 32 },
    ghost told: { (r k : ℕ) → r < 32 → member (slice_index racks r) k ≡ lies_in r (seat_of at k) },
    ghost shelves: { length nodes ≡ 8 },
    ghost known: { (k : ℕ) → has_noted nodes (seat_of at k) ≡ true },
}

impl Sitting {
    /// Nobody sits.
    pub(crate) fn new() -> Sitting
        ensures { (k : ℕ) → seat_of result.at k ≡ None }
    {
        Sitting {
            at: [None; MOST],
            racks: [NumberSet::from(0); 32],
            nodes: [NumberSet::from(0); 8],
        }
    }

    /// Block x has a seat, or none; gives the one that it had.
    pub(crate) fn put(&mut self, x: u32, seat: Option<Seat>) -> Option<Seat>
        ensures had { result ≡ seat_of self.old.at x }
        ensures at { self.new.at ≡ slice_set self.old.at x seat }
    {
        let i = x as usize;
        if i >= MOST {
            return None;
        }
        let had = self.at[i];
        leave(&mut self.racks, x, had);
        join(&mut self.racks, x, seat);
        note(&mut self.nodes, seat);
        self.at[i] = seat;
        had
    }

    // The blocks that sit in the rack of a seat.
    fn in_rack(&self, v: Seat) -> NumberSet
        ensures { (k : ℕ) → member result k ≡ shares self.now.at v k }
    {
        self.racks[slot(v.rack)]
    }

    // The block in the rack of a seat that has its node.
    fn holder(&self, v: Seat) -> Option<u32>
        ensures { Holder self.now.at v result }
    {
        // By `find` the closure would owe at each turn that a member is a block that sits: tried, and only the loop's invariant
        // says it.
        for y in Members::of(self.in_rack(v)) {
            if is_at(self.at[y as usize], v.node) {
                return Some(y);
            }
        }
        None
    }

    /// The blocks of which one has to give way for a block that is out to have a seat; none where it is open.
    pub(crate) fn blockers(&self, c: u32, v: Seat) -> Option<NumberSet>
        ensures { Blockers c self.now.at v result }
    {
        if let Some(y) = self.holder(v) {
            return Some(NumberSet::from(0).with(y));
        }
        let there = self.in_rack(v);
        if there.len() < c {
            return None;
        }
        Some(there)
    }

    // Whether a block may sit at a node, or have sat there.
    fn is_noted(&self, node: Node) -> bool
        ensures { result ≡ noted self.now.nodes node.0 }
    {
        self.nodes[shelf(node)].has(u32::from(node.0 % 32))
    }

    /// Whether a seat is open for sure, told without a look at the blocks. Where a block has left the node, and others are in the
    /// rack, it may be open all the same.
    pub(crate) fn is_open(&self, c: u32, v: Seat) -> bool
        ensures { IsTrue result → Blockers c self.now.at v None }
    {
        let there = self.in_rack(v);
        there.len() < c && (u32::from(there) == 0 || !self.is_noted(v.node))
    }
}
