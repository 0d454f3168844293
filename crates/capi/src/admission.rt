// Admission for C: whether a stripe's blocks and an offered one have a choice.
ghost use Rattle.std.specs.Prelude.{◌≡◌};
ghost use Rattle.capi.specs.Admissions.{Admits, AdmitTold};

use crate::lists::{Lists, read_block};
use crate::refused::Refused;
use crate::sites::{VaultSite, site_map};
use blocks::lists::Blocks;
use placement::admit::admit;

/// Whether the blocks of some lists and an offered one have a choice. If not, the least tight set is told, its bit p − 1 for
/// the list at position p and the offered one past the last.
pub(crate) fn admit_lists(
    site: &VaultSite,
    c: u32,
    lists: &Lists<'_>,
    offered: &[u16],
) -> Result<(), Refused>
    ensures { Admits site.now c lists.now.nodes.now lists.now.lens.now offered.now result }
{
    let map = site_map(site)?;
    let mut blocks = Blocks::new();
    lists.read(&mut blocks)?;
    let block = read_block(offered)?;
    admit(&map, c, &blocks, &block).map_err(Refused::NoChoice)
}

/// `admit_lists` for C: 0, or the refusal's number; where that is 24, the set is written to `set`, which else stays.
// A number goes out, since C knows no layout of a `Result`.
#[unsafe(no_mangle)]
pub extern "C" fn vault_admit(
    site: &VaultSite,
    c: u32,
    nodes: &[u16],
    lens: &[u8],
    offered: &[u16],
    set: &mut u32,
) -> u32
    ensures { AdmitTold site.now c nodes.now lens.now offered.now set.old set.new result }
{
    match admit_lists(site, c, &Lists { nodes, lens }, offered) {
        Ok(()) => 0,
        Err(refused) => {
            if let Refused::NoChoice(crowd) = refused {
                *set = u32::from(crowd);
            }
            u32::from(refused)
        }
    }
}
