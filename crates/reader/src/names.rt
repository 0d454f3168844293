// The names lines of a sheet, and the line that comes next.
ghost use Rattle.std.specs.Prelude.{◌≡◌, ◌<◌, [], length, MatchResult};
ghost use Rattle.text.specs.Faults.{at};
ghost use Rattle.text.specs.Rows.{left_of};
ghost use Rattle.reader.specs.Names.{OrEmpty, NextPart};

use text::fault::{Fault, FaultKind};
use text::lines::{Line, Lines};
use text::place::Place;

/// The names of the code.
pub(crate) const CODE_NAMES: [&[u8]; 4] = [b"n", b"k", b"c", b"targets"];

/// The names of a regular site.
pub(crate) const REGULAR_NAMES: [&[u8]; 2] = [b"racks", b"each"];

/// The names of a node listing.
pub(crate) const NODE_NAMES: [&[u8]; 3] = [b"node", b"rack", b"keep"];

/// The names of the calls.
pub(crate) const CALL_NAMES: [&[u8]; 3] = [b"call", b"first", b"rest"];

/// A fault that is told at a line's first column.
pub(crate) fn line_fault(kind: FaultKind, line: u32) -> Fault
    ensures { result ≡ at kind line 1 }
{
    Fault {
        kind,
        place: Place { line, column: 1 },
    }
}

/// The next line. A sheet that has none lacks a part.
pub(crate) fn next_part<'a>(lines: &mut Lines<'a>) -> Result<Line<'a>, Fault>
    ensures { NextPart (left_of lines.old) lines.old.number result (left_of lines.new) lines.new.number }
{
    let number = lines.number();
    lines.next().ok_or(line_fault(FaultKind::Sheet, number))
}

/// The next line, or an empty one in its place where there is none.
pub(crate) fn next_or_empty<'a>(lines: &mut Lines<'a>) -> Line<'a>
    ensures { OrEmpty (left_of lines.old) lines.old.number result (left_of lines.new) lines.new.number }
{
    let number = lines.number();
    lines.next().unwrap_or(Line { bytes: b"", number })
}

/// The fault of a line that is to be empty, if it is not.
pub(crate) fn end_part(line: Line) -> Result<(), Fault>
    ensures { MatchResult result (λ _. line.entry.bytes.now ≡ []) (λ f. (0 < length line.entry.bytes.now) × (f ≡ at FaultKind.Count line.entry.number 1)) }
{
    if line.bytes.is_empty() {
        return Ok(());
    }
    Err(line_fault(FaultKind::Count, line.number))
}
