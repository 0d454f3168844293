// The start of a run: a sheet is opened, its store is made and set up, and the names of its calls are read.
ghost use Rattle.std.specs.Prelude.{◌≡◌, [], ◌∷◌, take, Err};
ghost use Rattle.site.specs.Maps.{target, listed};
ghost use Rattle.text.specs.Rows.{left_of};
ghost use Rattle.reader.specs.SiteMaps.{kind_meaning, map_meaning};
ghost use Rattle.store.specs.declared.types.Refusal.{Refusal};
ghost use Rattle.store.specs.Stripes.{start};
ghost use Rattle.store.specs.Table.{ledger_of};
ghost use Rattle.sheet.specs.declared.faults.RunFault.TheVariants.{SetUp};
ghost use Rattle.sheet.specs.Starts.{count_of, RunOpened, Begun};
ghost use Rattle.sheet.specs.Sheets.{Enough};

use crate::faults::RunFault;
use crate::run::Run;
use fixed::slices::front;
use reader::calls::read_calls;
use reader::code::CodeValues;
use reader::listing::TABLE;
use reader::maps::SheetMap;
use reader::opening::{Opening, open_sheet};
use reader::sites::SiteValues;
use site::target::TargetMap;
use site::{Mark, Rack, SiteMap};
use store::store::Store;
use store::types::Call;
use text::lines::Lines;

/// How many bytes of a sheet are enough to answer it: one more than it may have, so that a longer one is noticed.
pub fn enough() -> u64
    ensures { Enough result }
{
    65_537
}

/// Reads the code and the site of a sheet, a listing's places into the table, and leaves the reader at the calls part.
pub fn open_run<'a>(
    sheet: &'a [u8],
    lines: &mut Lines<'a>,
    table: &mut [(Rack, Mark); TABLE],
) -> Result<Opening, RunFault>
    ensures { RunOpened sheet.now table.old table.new lines.new result }
{
    Ok(open_sheet(sheet, lines, table)?)
}

// How many places of the table the site has.
fn listed_nodes(site: SiteValues) -> usize
    ensures { result ≡ count_of site }
{
    match site {
        SiteValues::Regular { .. } => 0,
        SiteValues::Listed { nodes } => usize::from(nodes),
    }
}

/// The map that a sheet's store stands over: the target map over the site that was read.
pub fn sheet_map<'a>(opening: Opening, table: &'a [(Rack, Mark)]) -> TargetMap<SheetMap<'a>>
    ensures { target result.word (map_meaning result.map) ≡ target opening.head.code.targets (kind_meaning opening.kind (listed (take (count_of opening.head.site) table.now))) }
{
    let places = front(table, listed_nodes(opening.head.site));
    TargetMap::new(
        SheetMap::new(opening.kind, places),
        opening.head.code.targets,
    )
}

impl<'a, M: SiteMap> Run<'a, M> {
    /// A run over a map, with the reader at the calls part. It has still to begin.
    pub fn new(map: M, lines: Lines<'a>) -> Run<'a, M>
        ensures map { result.store.map ≡ map }
        ensures ledger { ledger_of result.store ≡ start }
        ensures left { left_of result.lines ≡ left_of lines.entry }
        ensures number { result.lines.number ≡ lines.entry.number }
        ensures order { result.order ≡ 0 ∷ 1 ∷ 2 ∷ [] }
    {
        Run {
            lines,
            order: [0, 1, 2],
            store: Store::new(map),
        }
    }

    /// Sets the store up, and then reads the names of the calls. A refused set-up leaves the run as it was.
    pub fn begin(&mut self, code: CodeValues) -> Result<(), RunFault>
        ensures map { self.new.store.map ≡ self.old.store.map }
        ensures refused { (e : Refusal) → result ≡ Err (SetUp e) → self.new ≡ self.old }
        ensures begun { ledger_of self.old.store ≡ start → Begun (M.SiteMap.meaning self.old.store.map) code (left_of self.old.lines) self.old.lines.number result self.new }
    {
        let call = Call::SetUp {
            n: code.n,
            k: code.k,
            c: code.c,
        };
        self.store.call(&call, &mut [])?;
        self.order = read_calls(&mut self.lines)?;
        Ok(())
    }
}
