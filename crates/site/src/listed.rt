// The listed map: a window over the caller's table of node entries.
ghost use Rattle.std.specs.Prelude.{◌≡◌, ℕ, ◌<◌, ◌≤◌, length};
ghost use Rattle.site.specs.Maps.{window, listed};
ghost use Rattle.site.specs.Limits.{listed-limits};

use crate::{Mark, NODES, Node, RACKS, Rack, SiteMap};
use fixed::slices::front;

/// The map over a table, as far as its window reaches: at most `NODES` entries, and none from the first whose rack is
/// past the last rack on.
// The length stands beside the table, as the project asks; a map that kept the window alone could not be handed on by value.
#[derive(Clone, Copy)]
pub struct ListedMap<'a> {
    entries: &'a [(Rack, Mark)],
    len: u16,
    ghost counted: { len ≡ length (listed entries.now) },
}

impl<'a> ListedMap<'a> {
    pub fn new(entries: &'a [(Rack, Mark)]) -> ListedMap<'a>
        ensures { result.entries.now ≡ entries.now }
    {
        let window = front(entries, NODES as usize);
        let len = window.iter().position(|(rack, _)| rack.0 >= RACKS);
        ListedMap {
            entries,
            len: len.unwrap_or(window.len()) as u16,
        }
    }
}

impl SiteMap for ListedMap<'_> {
    ghost meaning = { λ m. listed m.entries.now };

    ghost limits = { λ m. listed-limits m.entries.now };

    fn nodes(&self) -> u16 {
        self.len
    }

    fn node(&self, v: Node) -> Option<(Rack, Mark)> {
        if v.0 < self.len {
            Some(self.entries[v.0 as usize])
        } else {
            None
        }
    }
}
