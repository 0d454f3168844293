// The code part of a sheet: a names line, one line of numbers, and an empty line.
ghost use Rattle.std.specs.Result.{MatchResult};
ghost use Rattle.text.specs.Faults.{Least};
ghost use Rattle.text.specs.Rows.{left_of};
ghost use Rattle.reader.specs.Codes.{CodeFault, CodeRead};

use crate::form::Form;
use crate::names::{CODE_NAMES, end_part, line_fault, next_or_empty, next_part};
use crate::row::Row;
use text::fault::{Fault, FaultKind};
use text::lines::Lines;
use text::names::name_order;

/// The code as the sheet writes it.
#[derive(Clone, Copy)]
pub struct CodeValues {
    pub n: u32,
    pub k: u32,
    pub c: u32,
    pub targets: u32,
}

/// Reads the code part, and leaves the reader past the empty line that ends it.
pub(crate) fn read_code(lines: &mut Lines) -> Result<CodeValues, Fault>
    ensures { MatchResult result (λ v. CodeRead lines.old.number (left_of lines.old) v (left_of lines.new) lines.new.number) (Least (CodeFault lines.old.number (left_of lines.old))) }
{
    let names = next_part(lines)?;
    let order = name_order::<4>(names.bytes, &CODE_NAMES).ok_or(line_fault(
        FaultKind::Names,
        names.number,
    ))?;
    let row = Row {
        line: next_or_empty(lines),
        order: &order,
    };
    row.check(Form::Numbers)?;
    let end = next_part(lines)?;
    end_part(end)?;
    Ok(CodeValues {
        n: row.number(0, u32::MAX),
        k: row.number(1, u32::MAX),
        c: row.number(2, u32::MAX),
        targets: row.number(3, u32::MAX),
    })
}
