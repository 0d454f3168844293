// The target map: any other map, with the racks that may keep blocks narrowed to those of a word.
ghost use Rattle.std.specs.Prelude.{◌≡◌, ◌<◌, bit_and};
ghost use Rattle.site.specs.Words.{member};
ghost use Rattle.site.specs.Maps.{target, marked};
ghost use Rattle.site.specs.Limits.{target-limits};

use crate::{Mark, Node, Rack, SiteMap};

/// The map below, with the marks of a rack's nodes kept only where the rack's bit of `word` is 1.
// A word, and no `NumberSet`: with one, a function that makes a sheet's map and hands it on by value gets no proof (tried).
#[derive(Drop)]
pub struct TargetMap<M: SiteMap> {
    map: M,
    word: u32,
}

impl<M: SiteMap> TargetMap<M> {
    /// The racks of `word` are the targets: its bit j, the lowest being 0, is for rack j.
    pub fn new(map: M, word: u32) -> TargetMap<M>
        ensures fields { (result.map ≡ map) × (result.word ≡ word) }
        ensures means { target result.word (M.meaning result.map) ≡ target word (M.meaning map) }
    {
        TargetMap { map, word }
    }

    /// All racks are targets: it means what the map below means.
    pub fn all(map: M) -> TargetMap<M>
        ensures { target result.word (M.meaning result.map) ≡ M.meaning map }
    {
        TargetMap {
            map,
            word: u32::MAX,
        }
    }

    /// One map that means what a target map over this one means: the two words are and-ed.
    pub fn within(self, word: u32) -> TargetMap<M>
        ensures fields { (result.map ≡ self.map) × (result.word ≡ bit_and self.word word) }
        ensures means { target result.word (M.meaning result.map) ≡ target word (target self.word (M.meaning self.map)) }
    {
        let TargetMap { map, word: own } = self;
        TargetMap {
            map,
            word: own & word,
        }
    }
}

// Whether the rack's bit is 1. By hand: `NumberSet::has` asks once more that the rack is below 32 (measured).
fn bit_on(word: u32, rack: Rack) -> bool
    requires { rack.0 < 32 }
    ensures { result ≡ member word rack.0 }
{
    (word >> rack.0) % 2 == 1
}

// The mark below where the rack is a target, else no.
fn narrowed(mark: Mark, on: bool) -> Mark
    ensures { result ≡ marked mark on }
{
    if on { mark } else { Mark::No }
}

impl<M: SiteMap> SiteMap for TargetMap<M> {
    ghost meaning = { λ m. target m.word (M.SiteMap.meaning m.map) };

    ghost limits = { λ m. target-limits m.word (M.SiteMap.meaning m.map) (M.SiteMap.limits m.map) };

    fn nodes(&self) -> u16 {
        self.map.nodes()
    }

    fn node(&self, v: Node) -> Option<(Rack, Mark)> {
        let (rack, mark) = self.map.node(v)?;
        Some((rack, narrowed(mark, bit_on(self.word, rack))))
    }
}
