// Nodes by their numbers.
ghost use Rattle.std.specs.Prelude.{◌≡◌, take};
ghost use Rattle.blocks.specs.Blocks.{numbers};

use fixed::list::FixedList;
use fixed::slices::front;
use site::Node;

/// The nodes of some numbers, as many as there is room for.
pub fn as_nodes<const N: usize>(words: &[u16]) -> FixedList<Node, N>
    ensures { numbers result ≡ take N words.now }
{
    // No further than there is room: a caller's list may be any length.
    let words = front(words, N);
    // Set and not pushed, which would read the length back each time (measured).
    let mut nodes = FixedList::blanks(words.len());
    for (i, word) in words.iter().enumerate() {
        nodes.set(i, Node(*word));
    }
    nodes
}
