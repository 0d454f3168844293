// The opening of a sheet: its code and site are read, and then the site's map is looked at.
ghost use Rattle.std.specs.Prelude.{◌≡◌};
ghost use Rattle.reader.specs.Openings.{Opened};
ghost use Rattle.reader.specs.declared.opening.SiteFault.TheVariants.{Read};

use crate::head::{Head, read_head};
use crate::listing::TABLE;
use crate::maps::{SiteKind, site_kind};
use site::regular::OutsideRegular;
use site::{Mark, Rack};
use text::fault::Fault;
use text::lines::Lines;

/// The number of the site's value line, where a regular site's refusal is told.
pub const SITE_LINE: u32 = 5;

/// What stops a sheet before its store is set up: a reader's fault, or the refusal of the site's map with its line.
#[derive(Clone, Copy)]
pub enum SiteFault {
    Read(Fault),
    Refused(OutsideRegular, u32),
}

impl From<Fault> for SiteFault {
    ghost from_gives = { λ f r. r ≡ Read f };

    fn from(fault: Fault) -> SiteFault {
        SiteFault::Read(fault)
    }
}

/// What a sheet says before its calls, and the kind of its site's map.
#[derive(Clone, Copy)]
pub struct Opening {
    pub head: Head,
    pub kind: SiteKind,
}

/// Reads the code and the site of a sheet, a listing's places into the table, and makes a regular site's map. The reader is
/// then at the calls part.
pub fn open_sheet<'a>(
    sheet: &'a [u8],
    lines: &mut Lines<'a>,
    table: &mut [(Rack, Mark); TABLE],
) -> Result<Opening, SiteFault>
    ensures { Opened sheet.now table.old table.new lines.new result }
{
    let head = read_head(sheet, lines, table)?;
    let kind = site_kind(head.site).map_err(|refusal| SiteFault::Refused(refusal, SITE_LINE))?;
    Ok(Opening { head, kind })
}
