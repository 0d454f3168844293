// Plans for C: the kept copies of a stripe's blocks, and its parity nodes.
ghost use Rattle.std.specs.Prelude.{◌≡◌};
ghost use Rattle.text.specs.Texts.{whole};
ghost use Rattle.blocks.specs.Blocks.{numbers};
ghost use Rattle.capi.specs.Plans.{Plans, PlanTold};

use crate::lists::Lists;
use crate::refused::Refused;
use crate::sites::{VaultSite, site_map};
use blocks::code::Code;
use blocks::lists::{Blocks, Nodes};
use fixed::slices::put;
use placement::plan::plan;
use site::Node;

/// Of n blocks k are data, and at most c lie in a rack.
#[repr(C)]
#[derive(Clone, Copy)]
pub struct VaultCode {
    pub n: u32,
    pub k: u32,
    pub c: u32,
}

/// The n nodes of a stripe of k lists: the first choice, and then the parity nodes from `start` on.
pub(crate) fn plan_lists(
    site: &VaultSite,
    code: &VaultCode,
    lists: &Lists<'_>,
    start: u16,
) -> Result<Nodes, Refused>
    ensures { Plans site.now code.now lists.now.nodes.now lists.now.lens.now start result }
{
    let map = site_map(site)?;
    let code = Code::new(code.n, code.k, code.c).ok_or(Refused::OutsideLimits)?;
    let mut blocks = Blocks::new();
    lists.read(&mut blocks)?;
    if lists.lens.len() != code.k() as usize {
        return Err(Refused::NotFull);
    }
    let planned = plan(&map, &code, &blocks, Node(start));
    if planned.len() != code.n() as usize {
        return Err(Refused::NoPlan);
    }
    Ok(planned)
}

// Writes the numbers of nodes from the front of a buffer, as far as it has room.
fn write_nodes(out: &mut [u16], nodes: &[Node])
    ensures { out.new ≡ whole out.old (numbers nodes.now) }
{
    for (i, node) in nodes.iter().enumerate() {
        put(out, i, node.0);
    }
}

/// `plan_lists` for C: 0, or the refusal's number. The nodes are written from the front of `out`, as far as it has room, and
/// their number to `len`; where there is a refusal, both stay.
// A number goes out, since C knows no layout of a `Result`.
#[unsafe(no_mangle)]
pub extern "C" fn vault_plan(
    site: &VaultSite,
    code: &VaultCode,
    nodes: &[u16],
    lens: &[u8],
    start: u16,
    out: &mut [u16],
    len: &mut usize,
) -> u32
    ensures { PlanTold site.now code.now nodes.now lens.now start out.old out.new len.old len.new result }
{
    match plan_lists(site, code, &Lists { nodes, lens }, start) {
        Ok(planned) => {
            write_nodes(out, planned.as_slice());
            *len = planned.len();
            0
        }
        Err(refused) => u32::from(refused),
    }
}
