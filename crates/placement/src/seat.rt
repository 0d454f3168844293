// A block's list resolved against the map: its yes nodes in list order, each with its rack.
ghost use Rattle.std.specs.Prelude.{◌≡◌, [], ◌∷◌};

use blocks::block::COPIES;
use fixed::list::{Blank, FixedList};
use site::{Node, Rack};

/// A node that may keep a copy, and its rack.
#[derive(Clone, Copy)]
pub struct Seat {
    pub node: Node,
    pub rack: Rack,
}

impl Blank for Seat {
    ghost blank = { record { node = record { 0 = 0 }; rack = record { 0 = 0 } } };

    fn blank() -> Seat {
        Seat {
            node: Node(0),
            rack: Rack(0),
        }
    }
}

/// The most blocks that sit at once: a full stripe's and an offered one.
pub const MOST: usize = 17;

/// The seats of a block, in list order.
pub type Seats = FixedList<Seat, COPIES>;

/// The seats of a stripe's blocks and of an offered one.
pub type Lists = FixedList<Seats, MOST>;

/// One seat alone.
pub(crate) fn alone(v: Seat) -> Seats
    ensures { result ≡ v ∷ [] }
{
    let mut seats = Seats::new();
    let _ = seats.push(v);
    seats
}
