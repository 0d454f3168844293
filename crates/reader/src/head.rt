// The code and the site of a sheet, which are read before anything is asked of them.
ghost use Rattle.std.specs.Result.{MatchResult};
ghost use Rattle.text.specs.Faults.{Least};
ghost use Rattle.reader.specs.Heads.{HeadFault, HeadRead};

use crate::code::{CodeValues, read_code};
use crate::listing::TABLE;
use crate::names::line_fault;
use crate::sites::{SiteValues, read_site};
use site::{Mark, Rack};
use text::fault::{Fault, FaultKind};
use text::lines::{Lines, MOST};

/// What a sheet says before its calls.
#[derive(Clone, Copy)]
pub struct Head {
    pub code: CodeValues,
    pub site: SiteValues,
}

/// Reads the code and the site of a sheet, a listing's places into the table. The reader is then at the calls part; it is lent, since
/// the checker did not cover it within a result beside the site.
pub fn read_head<'a>(
    sheet: &'a [u8],
    lines: &mut Lines<'a>,
    table: &mut [(Rack, Mark); TABLE],
) -> Result<Head, Fault>
    ensures { MatchResult result (λ h. HeadRead sheet.now h table.old table.new lines.new) (Least (HeadFault sheet.now)) }
{
    if sheet.len() > MOST {
        return Err(line_fault(FaultKind::Sheet, 1));
    }
    *lines = Lines::new(sheet);
    let code = read_code(lines)?;
    let site = read_site(lines, table)?;
    Ok(Head { code, site })
}
