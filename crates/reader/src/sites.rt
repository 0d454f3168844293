// The site part of a sheet: two numbers of a regular site, or a node listing.
ghost use Rattle.std.specs.Prelude.{ℕ, List, MatchResult};
ghost use Rattle.text.specs.Faults.{Least};
ghost use Rattle.text.specs.Rows.{left_of};
ghost use Rattle.reader.specs.Names.{InOrder, regular_names};
ghost use Rattle.reader.specs.Sites.{RegularFault, RegularRead, SitePartFault, SiteRead};

use crate::form::Form;
use crate::listing::{TABLE, read_nodes};
use crate::names::{NODE_NAMES, REGULAR_NAMES, end_part, line_fault, next_or_empty, next_part};
use crate::row::Row;
use site::{Mark, Rack};
use text::fault::{Fault, FaultKind};
use text::lines::Lines;
use text::names::name_order;

/// The site as the sheet writes it. The nodes of a listing are in the table that was lent for them.
#[derive(Clone, Copy)]
pub enum SiteValues {
    Regular { racks: u32, each: u32 },
    Listed { nodes: u16 },
}

// The two numbers of a regular site.
fn read_regular(lines: &mut Lines, order: &[usize]) -> Result<(u32, u32), Fault>
    requires { (names : List ℕ) × InOrder regular_names names order.now }
    ensures { MatchResult result (λ v. RegularRead order.now lines.old.number (left_of lines.old) v.0 v.1 (left_of lines.new) lines.new.number) (Least (RegularFault order.now lines.old.number (left_of lines.old))) }
{
    let row = Row {
        line: next_or_empty(lines),
        order,
    };
    row.check(Form::Numbers)?;
    // A sheet that ends here ends the part as an empty line does.
    let end = next_or_empty(lines);
    end_part(end)?;
    Ok((row.number(0, u32::MAX), row.number(1, u32::MAX)))
}

/// Reads the site part, a listing's places into the table, and leaves the reader past the empty line that ends it.
pub(crate) fn read_site(
    lines: &mut Lines,
    table: &mut [(Rack, Mark); TABLE],
) -> Result<SiteValues, Fault>
    ensures { MatchResult result (λ v. SiteRead lines.old.number (left_of lines.old) v table.old table.new (left_of lines.new) lines.new.number) (Least (SitePartFault lines.old.number (left_of lines.old))) }
{
    let names = next_part(lines)?;
    if let Some(order) = name_order::<2>(names.bytes, &REGULAR_NAMES) {
        let (racks, each) = read_regular(lines, &order)?;
        return Ok(SiteValues::Regular { racks, each });
    }
    let order = name_order::<3>(names.bytes, &NODE_NAMES).ok_or(line_fault(
        FaultKind::Names,
        names.number,
    ))?;
    let nodes = read_nodes(lines, &order, table)?;
    Ok(SiteValues::Listed { nodes })
}
