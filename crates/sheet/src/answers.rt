// One call of a sheet: it is made at the store, and its line is written.
ghost use Rattle.std.specs.Prelude.{◌≡◌, ◌≤◌, List, length, Some};
ghost use Rattle.blocks.specs.Blocks.{numbers};
ghost use Rattle.store.specs.Stripes.{Code, Call as LedgerCall};
ghost use Rattle.store.specs.Ledger.{ledger};
ghost use Rattle.store.specs.Table.{ledger_of, call_of};
ghost use Rattle.sheet.specs.Said.{Stands, Low, sent, sent_nodes};
ghost use Rattle.sheet.specs.Runs.{Lined};

use crate::nodes::as_nodes;
use crate::put::write;
use crate::replies::Reply;
use fixed::list::FixedList;
use reader::calls::{Asked, CallLine};
use site::{Node, Rack, SiteMap};
use store::store::Store;
use store::types::{Call, Row};
use text::nodes::KEPT;

/// As many rows as any call of a sheet writes.
pub const ROWS: usize = 112;

// The nodes that an offer's list keeps, and one more where it has more, so that a list of more than eight stays one.
fn offered(asked: &Asked) -> FixedList<Node, 9>
    ensures { numbers result ≡ sent_nodes asked.now }
{
    let Asked::Offer(list) = asked else {
        return FixedList::new();
    };
    let mut nodes = as_nodes(list.nodes.as_slice());
    if list.len > KEPT {
        let _ = nodes.push(Node::default());
    }
    nodes
}

// The call of a line, an offer with these nodes.
fn call_with<'a>(line: CallLine, nodes: &'a [Node]) -> Call<'a>
    ensures call { call_of result 112 ≡ sent line.asked line.first (numbers nodes.now) }
    ensures low { Low line.asked × (line.first ≤ 4294967295) }
{
    let rack = Rack(line.first);
    match line.asked {
        Asked::Offer(_) => Call::Offer {
            block: line.first,
            nodes,
        },
        Asked::Seal(start) => Call::Seal {
            rack,
            start: Node(start),
        },
        Asked::Plan => Call::Plan { rack },
        Asked::Deletions => Call::Deletions { rack },
        Asked::Release => Call::Release { rack },
        Asked::Abandon => Call::Abandon { rack },
    }
}

/// Makes the call of a line at a store that has had the calls h, and writes its answer.
pub(crate) fn answer_line<M: SiteMap>(store: &mut Store<M>, line: CallLine, out: &mut [u8]) -> usize
    ensures within { result ≤ length out.old }
    ensures map { store.new.map ≡ store.old.map }
    ensures low { Low line.asked × (line.first ≤ 4294967295) }
    ensures line { (h : List LedgerCall) (call : LedgerCall) (o : Code) → Stands line.asked line.first call → (ledger (M.SiteMap.meaning store.old.map) h).code ≡ Some o → ledger_of store.old ≡ ledger (M.SiteMap.meaning store.old.map) h → Lined (M.SiteMap.meaning store.old.map) h call (ledger_of store.new) result out.old out.new }
{
    let first = line.first;
    let nodes = offered(&line.asked);
    let call = call_with(line, nodes.as_slice());
    let mut rows = [Row::default(); ROWS];
    let answer = store.call(&call, &mut rows);
    let reply = Reply {
        first,
        answer,
        rows: &rows,
    };
    write(&reply, out)
}
