// The rows of a plan and of its deletions, written into the caller's rows in place.
ghost use Rattle.std.specs.Prelude.{◌≡◌, ◌+◌, ◌-◌, ◌<◌, ◌≤◌, ◌++◌, length, take, drop, sum_by, slice_set};
ghost use Rattle.site.specs.Site.{node_rack};
ghost use Rattle.blocks.specs.Lists.{node_numbers};
ghost use Rattle.store.specs.Answers.{kind_of, shown, lines, plan_row, plan_rows, gone_of, gone_rows};
ghost use Rattle.store.specs.Table.{held_of, helds_of};

use crate::checks::rack_of;
use crate::types::{Kind, Row};
use blocks::block::Block;
use blocks::lists::{Blocks, Nodes};
use fixed::slices::put;
use site::{Node, SiteMap};

fn row_of<M: SiteMap>(map: &M, kind: Kind, number: u32, node: Node) -> Row
    ensures { shown result ≡ (kind_of kind, number, node.0, node_rack (M.meaning map.now) node.0) }
{
    Row {
        kind,
        number,
        node,
        rack: rack_of(map, node),
    }
}

// The plan's row at place i: a block's while there are blocks, then parity from 1 on.
fn planned_row<M: SiteMap>(map: &M, blocks: &Blocks, node: Node, i: usize) -> Row
    requires { i < 24 }
    ensures { shown result ≡ plan_row (M.meaning map.now) (helds_of blocks.now) i node.0 }
{
    match blocks.get(i) {
        Some(block) => row_of(map, Kind::Data, block.number(), node),
        None => row_of(map, Kind::Parity, (i - blocks.len() + 1) as u32, node),
    }
}

/// Writes a plan's rows, and says how many there are.
pub(crate) fn write_plan<M: SiteMap>(
    map: &M,
    blocks: &Blocks,
    plan: &Nodes,
    rows: &mut [Row],
) -> usize
    ensures count { result ≡ length (plan_rows (M.meaning map.now) (helds_of blocks.now) (node_numbers plan.now)) }
    ensures rows { result ≤ length rows.old → lines rows.new ≡ plan_rows (M.meaning map.now) (helds_of blocks.now) (node_numbers plan.now) ++ drop result (lines rows.old) }
{
    for (i, v) in plan.as_slice().iter().enumerate() {
        put(rows, i, planned_row(map, blocks, *v, i));
    }
    plan.len()
}

// How many copies of a block go when it keeps one.
fn spare(block: &Block) -> usize
    ensures value { result ≡ length (held_of block.now).copies - 1 }
    ensures few { result ≤ 7 }
{
    block.nodes().len() - 1
}

/// How many copies go when each block keeps one.
pub(crate) fn spare_copies(blocks: &Blocks) -> usize
    ensures { result ≡ sum_by (λ b. length b.copies - 1) (helds_of blocks.now) }
{
    blocks.as_slice().iter().map(spare).sum()
}

// Writes the deletions of one block from `at` on, and says where they end.
fn write_gone_of<M: SiteMap>(
    map: &M,
    block: &Block,
    stays: Node,
    rows: &mut [Row],
    at: usize,
) -> usize
    requires { at ≤ 1000 }
    ensures end { result ≡ at + length (gone_of (M.meaning map.now) (held_of block.now) stays.0) }
    ensures rows { result ≤ length rows.old → lines rows.new ≡ take at (lines rows.old) ++ (gone_of (M.meaning map.now) (held_of block.now) stays.0 ++ drop result (lines rows.old)) }
{
    // counted here: how many copies go is known only once all are looked at
    let mut end = at;
    for w in block.nodes() {
        let goes = *w != stays;
        if goes {
            put(rows, end, row_of(map, Kind::Deleted, block.number(), *w));
            end += 1;
        }
    }
    end
}

/// Writes the rows of all copies that are not kept, and says how many there are.
pub(crate) fn write_gone<M: SiteMap>(
    map: &M,
    blocks: &Blocks,
    plan: &Nodes,
    rows: &mut [Row],
) -> usize
    ensures count { result ≡ length (gone_rows (M.meaning map.now) (helds_of blocks.now) (node_numbers plan.now)) }
    ensures rows { result ≤ length rows.old → lines rows.new ≡ gone_rows (M.meaning map.now) (helds_of blocks.now) (node_numbers plan.now) ++ drop result (lines rows.old) }
{
    let mut at = 0;
    for (block, v) in blocks.as_slice().iter().zip(plan.as_slice()) {
        at = write_gone_of(map, block, *v, rows, at);
    }
    at
}
