// The calls that change nothing in the store: plan, deletions and standing.
ghost use Rattle.std.specs.Prelude.{◌≡◌, not, ◌&&◌, [], length};
ghost use Rattle.site.specs.Site.{node_rack};
ghost use Rattle.site.specs.Words.{member};
ghost use Rattle.choices.specs.Choice.{has};
ghost use Rattle.blocks.specs.Blocks.{numbers};
ghost use Rattle.blocks.specs.Lists.{node_numbers};
ghost use Rattle.choices.specs.Survive.{stand};
ghost use Rattle.store.specs.Stripes.{plan, deletions, standing};
ghost use Rattle.store.specs.Told.{Told};

use crate::checks::{all_on_map, rack_of};
use crate::rows::{spare_copies, write_gone, write_plan};
use crate::store::Store;
use crate::types::{Answer, Refusal, Row};
use blocks::lists::Nodes;
use site::set::NumberSet;
use site::{Node, Rack, SiteMap};

// Whether a planned node is not lost, neither by itself nor with its rack.
fn stands<M: SiteMap>(map: &M, v: Node, lost: &[Node], racks: NumberSet) -> bool
    ensures { result ≡ (not (has v.0 (numbers lost.now)) && not (member racks (node_rack (M.meaning map.now) v.0))) }
{
    !lost.contains(&v) && !racks.has(rack_of(map, v).0)
}

fn count_standing<M: SiteMap>(map: &M, planned: &Nodes, lost: &[Node], racks: NumberSet) -> u32
    ensures { result ≡ stand (M.meaning map.now) (node_numbers planned.now) (numbers lost.now) racks }
{
    let standing = planned.as_slice().iter();
    standing.filter(|v| stands(map, **v, lost, racks)).count() as u32
}

impl<M: SiteMap> Store<M> {
    /// Writes the rows of a sealed stripe's plan.
    pub fn plan(&self, rack: Rack, rows: &mut [Row]) -> Result<Answer, Refusal>
        ensures { Told (M.meaning self.now.map) self.now self.now (plan rack.0 (length rows.old)) result rows.old rows.new }
    {
        let code = self.code()?;
        let (blocks, planned) = self.stripe(rack)?.sealed()?;
        if rows.len() < code.n() as usize {
            return Err(Refusal::FewRows);
        }
        Ok(Answer::Rows(write_plan(&self.map, blocks, planned, rows)))
    }

    /// Writes a row for each copy that a sealed stripe's plan does not keep.
    pub fn deletions(&self, rack: Rack, rows: &mut [Row]) -> Result<Answer, Refusal>
        ensures { Told (M.meaning self.now.map) self.now self.now (deletions rack.0 (length rows.old)) result rows.old rows.new }
    {
        self.code()?;
        let (blocks, planned) = self.stripe(rack)?.sealed()?;
        if rows.len() < spare_copies(blocks) {
            return Err(Refusal::FewRows);
        }
        Ok(Answer::Rows(write_gone(&self.map, blocks, planned, rows)))
    }

    /// How many planned blocks are on no lost node and in no lost rack.
    pub fn standing(&self, rack: Rack, lost: &[Node], racks: u32) -> Result<Answer, Refusal>
        ensures { Told (M.meaning self.now.map) self.now self.now (standing rack.0 (numbers lost.now) racks) result [] [] }
    {
        self.code()?;
        let stripe = self.stripe(rack)?;
        if !all_on_map(&self.map, lost) {
            return Err(Refusal::OffMap);
        }
        let (_, planned) = stripe.sealed()?;
        let standing = count_standing(&self.map, planned, lost, NumberSet::from(racks));
        Ok(Answer::Standing(standing))
    }
}
