// The map of a sheet's site.
ghost use Rattle.std.specs.Prelude.{◌≡◌, MatchResult};
ghost use Rattle.site.specs.Maps.{listed};
ghost use Rattle.reader.specs.SiteMaps.{kind_meaning, map_meaning, map-limits, KindOf, NoMap};

use crate::sites::SiteValues;
use site::listed::ListedMap;
use site::regular::{OutsideRegular, RegularMap};
use site::{Mark, Node, Rack, SiteMap};

/// The kind of a site, with the map of a regular one.
#[derive(Clone, Copy)]
pub enum SiteKind {
    Regular(RegularMap),
    Listed,
}

/// The kind of a site that was read, where its two numbers fit a map.
pub fn site_kind(site: SiteValues) -> Result<SiteKind, OutsideRegular>
    ensures { MatchResult result (KindOf site) (λ _. NoMap site) }
{
    match site {
        SiteValues::Regular { racks, each } => Ok(SiteKind::Regular(RegularMap::new(racks, each)?)),
        SiteValues::Listed { nodes: _ } => Ok(SiteKind::Listed),
    }
}

/// The map of either kind of site. The table is read where the site is a listing. It stands beside the kind, and not in it: the
/// checker does not cover an enum that holds a reference beside a struct with a ghost field.
#[derive(Clone, Copy)]
pub struct SheetMap<'a> {
    kind: SiteKind,
    table: ListedMap<'a>,
}

impl<'a> SheetMap<'a> {
    pub fn new(kind: SiteKind, places: &'a [(Rack, Mark)]) -> SheetMap<'a>
        ensures { map_meaning result ≡ kind_meaning kind (listed places.now) }
    {
        SheetMap {
            kind,
            table: ListedMap::new(places),
        }
    }
}

impl SiteMap for SheetMap<'_> {
    ghost meaning = { λ m. map_meaning m };

    ghost limits = { λ m. map-limits m };

    fn nodes(&self) -> u16 {
        match self.kind {
            SiteKind::Regular(map) => map.nodes(),
            SiteKind::Listed => self.table.nodes(),
        }
    }

    fn node(&self, v: Node) -> Option<(Rack, Mark)> {
        match self.kind {
            SiteKind::Regular(map) => map.node(v),
            SiteKind::Listed => self.table.node(v),
        }
    }
}
