// What a site is made of, and the maps that tell of it: how many nodes there are, and each node's rack and keep mark.
#![tactic(auto)]

ghost use Rattle.std.specs.Prelude.{◌≡◌, length};
ghost use Rattle.site.specs.Site.{Site, Limits, place};

use fixed::list::Blank;

pub mod listed;
pub mod regular;
pub mod set;
pub mod target;

/// The most nodes that a map may have.
pub const NODES: u16 = 256;

/// How many racks there are; a rack of a map is below it.
pub const RACKS: u32 = 32;

/// A node's number.
#[derive(Clone, Copy, PartialEq, Eq, Debug, Default)]
pub struct Node(pub u16);

impl Blank for Node {
    ghost blank = { record { 0 = 0 } };

    fn blank() -> Node {
        Node(0)
    }
}

/// A rack's number, wide enough for any that a caller can write.
#[derive(Clone, Copy, PartialEq, Eq, Debug, Default)]
pub struct Rack(pub u32);

/// Whether a node may keep a block after encoding.
#[derive(Clone, Copy, PartialEq, Eq, Debug, Default)]
pub enum Mark {
    Yes,
    #[default]
    No,
}

/// What every map answers. Its meaning is a list of places, node 0 first; the two limits are shown by each map.
pub trait SiteMap {
    ghost meaning: { Self → Site };

    ghost limits: { (m : Self) → Limits (meaning m) };

    /// How many nodes there are.
    fn nodes(&self) -> u16
        ensures { result ≡ length (meaning self.now) };

    /// A node's rack and mark; absent past the last node.
    fn node(&self, v: Node) -> Option<(Rack, Mark)>
        ensures { result ≡ place (meaning self.now) v.0 };
}

/// A map that is lent for reading is a map of the same meaning.
impl<M: SiteMap> SiteMap for &M {
    ghost meaning = { λ m. M.SiteMap.meaning m.now };

    ghost limits = { λ m. M.SiteMap.limits m.now };

    fn nodes(&self) -> u16 {
        (**self).nodes()
    }

    fn node(&self, v: Node) -> Option<(Rack, Mark)> {
        (**self).node(v)
    }
}

#[cfg(test)]
mod tests;
