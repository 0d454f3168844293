// The calls part of a sheet: a names line, and then a line for each call.
ghost use Rattle.std.specs.Prelude.{◌≡◌, ℕ, List, take, Some, MatchResult};
ghost use Rattle.text.specs.Faults.{Least};
ghost use Rattle.text.specs.Rows.{left_of};
ghost use Rattle.reader.specs.Wants.{Fit, say_of};
ghost use Rattle.reader.specs.ValueRows.{field_of};
ghost use Rattle.reader.specs.Calls.{CallsFault, CallsRead, Further, call_act, RestText, CallFault, CallRead};

use crate::act::{Act, act_of};
use crate::form::{Form, Want};
use crate::names::{CALL_NAMES, line_fault, next_part};
use crate::row::Row;
use fixed::list::FixedList;
use text::fault::{Fault, FaultKind};
use text::lines::{Line, Lines};
use text::names::name_order;
use text::nodes::{HIGHEST, NodeList, node_list};

/// What a call's line asks for, besides its first number.
#[derive(Clone, Copy)]
pub enum Asked {
    /// To take the block into its stripe; these are the nodes that hold it.
    Offer(NodeList),
    /// To seal the rack's stripe, and to place parity from this node on.
    Seal(u16),
    Plan,
    Deletions,
    Release,
    Abandon,
}

/// A call as the sheet writes it. The first number is an offer's block, or the rack.
#[derive(Clone, Copy)]
pub struct CallLine {
    pub asked: Asked,
    pub first: u32,
}

/// Reads the names line of the calls: the order of its names. The reader is then past it, also where it is wrong.
pub fn read_calls(lines: &mut Lines) -> Result<[usize; 3], Fault>
    ensures read { MatchResult result (λ is. CallsRead lines.old.number (left_of lines.old) is (left_of lines.new) lines.new.number) (Least (CallsFault lines.old.number (left_of lines.old))) }
    ensures further { Further (left_of lines.old) lines.old.number (left_of lines.new) lines.new.number }
{
    let names = next_part(lines)?;
    name_order::<3>(names.bytes, &CALL_NAMES).ok_or(line_fault(FaultKind::Names, names.number))
}

impl Row<'_> {
    // The nodes under a name; none where it is no node list.
    fn nodes(self, name: usize) -> NodeList
        ensures { (f : List ℕ) → field_of self.entry name ≡ Some f → Fit Want.Nodes f → RestText (Asked.Offer result) f }
    {
        self.field(name).and_then(node_list).unwrap_or(NodeList {
            nodes: FixedList::new(),
            len: 0,
        })
    }

    // What the line of this call asks for.
    fn asked(self, act: Act) -> Asked
        ensures act { call_act result ≡ act }
        ensures rest { (f : List ℕ) → field_of self.entry 2 ≡ Some f → Fit (say_of act) f → RestText result f }
    {
        match act {
            Act::Offer => Asked::Offer(self.nodes(2)),
            // The number is at most HIGHEST.
            Act::Seal => Asked::Seal(self.number(2, HIGHEST) as u16),
            Act::Plan => Asked::Plan,
            Act::Deletions => Asked::Deletions,
            Act::Release => Asked::Release,
            Act::Abandon => Asked::Abandon,
        }
    }
}

/// Reads the line of a call, whose names stand in this order. A line that is too long for any sheet counts as far as one
/// reaches.
pub fn read_call(order: &[usize; 3], line: Line) -> Result<CallLine, Fault>
    ensures { MatchResult result (CallRead order.now line.entry.number (take 65536 line.entry.bytes.now)) (Least (CallFault order.now line.entry.number (take 65536 line.entry.bytes.now))) }
{
    let row = Row { line, order };
    let act = row.field(0).and_then(act_of);
    row.check(Form::Call(act))?;
    let first = row.number(1, u32::MAX);
    let act = act.unwrap_or(Act::Plan);
    Ok(CallLine {
        asked: row.asked(act),
        first,
    })
}
