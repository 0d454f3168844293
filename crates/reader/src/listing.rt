// A node listing: a line for each node, up to the first empty line.
ghost use Rattle.std.specs.Prelude.{MatchResult};
ghost use Rattle.text.specs.Faults.{Least};
ghost use Rattle.text.specs.Rows.{left_of};
ghost use Rattle.reader.specs.ValueRows.{FaultOf, NodeOf};
ghost use Rattle.reader.specs.Listings.{NodeOrder, NodesFault, NodesRead};

use crate::form::{Form, LAST_RACK};
use crate::row::Row;
use site::{Mark, Rack};
use text::fault::Fault;
use text::lines::Lines;

/// How many entries the table of a listing has: as many as a map may have nodes. The caller lends the table, as the project asks,
/// so its entries are counted beside it.
pub const TABLE: usize = 256;

impl Row<'_> {
    // The place of a node line, after so many others.
    fn place(self, count: u32) -> Result<(Rack, Mark), Fault>
        requires { NodeOrder self.order.now }
        ensures { MatchResult result (NodeOf self.entry count) (Least (FaultOf self.entry (Form.Node count))) }
    {
        self.check(Form::Node(count))?;
        Ok((Rack(self.number(1, LAST_RACK)), self.mark(2)))
    }
}

/// Reads the node lines into the table, and tells how many there are. The reader is left past the empty line that ends
/// them.
pub(crate) fn read_nodes(
    lines: &mut Lines,
    order: &[usize],
    table: &mut [(Rack, Mark); TABLE],
) -> Result<u16, Fault>
    requires { NodeOrder order.now }
    ensures { MatchResult result (λ count. NodesRead order.now lines.old.number (left_of lines.old) count table.old table.new (left_of lines.new) lines.new.number) (Least (NodesFault order.now lines.old.number 0 (left_of lines.old))) }
{
    // The lent table has no length of its own, so the places in it are counted. A `for` would take the reader by a second
    // reference, of which the proof does not learn what it leaves behind (tried).
    let mut count: u16 = 0;
    while let Some(line) = lines.next() {
        if line.bytes.is_empty() {
            return Ok(count);
        }
        let place = Row { line, order }.place(u32::from(count))?;
        table[usize::from(count)] = place;
        count += 1;
    }
    Ok(count)
}
