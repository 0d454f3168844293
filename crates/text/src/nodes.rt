// A node list as a sheet writes it: node numbers with single spaces between. A list may be long, so only its first
// nodes are kept; the others are read and counted.
ghost use Rattle.std.specs.Prelude.{◌≡◌};
ghost use Rattle.text.specs.NodeLists.{node_list_in, kept, Listed};

use crate::number::number;
use crate::split::Parts;
use fixed::list::FixedList;

/// How many nodes of a list are kept.
pub const KEPT: usize = 8;

/// The highest node number that a sheet may write.
pub const HIGHEST: u32 = 65535;

/// The first nodes of a list, and how many it has in all.
#[derive(Clone, Copy)]
pub struct NodeList {
    pub nodes: FixedList<u16, KEPT>,
    // Not the kept list's own length: a list of more than eight has to be told from one of eight.
    pub len: usize,
}

/// The list whose text the bytes are, if they are one's.
pub fn node_list(bytes: &[u8]) -> Option<NodeList>
    ensures value { result ≡ kept (node_list_in bytes.now) }
    ensures exact { Listed bytes.now (node_list_in bytes.now) }
{
    let mut nodes = FixedList::new();
    let mut len = 0;
    for word in Parts::new(bytes, b' ') {
        let node = number(word, HIGHEST)?;
        // A node is at most HIGHEST, and past its room the list stays as it is.
        let _ = nodes.push(node as u16);
        len += 1;
    }
    Some(NodeList { nodes, len })
}
