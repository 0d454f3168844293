// The sites that C can ask about: regular ones, with some racks as targets.
ghost use Rattle.std.specs.Prelude.{◌≡◌, MatchResult};
ghost use Rattle.site.specs.Maps.{Fit, regular, target};
ghost use Rattle.capi.specs.declared.refused.Refused.TheVariants.{OutsideRegular};
ghost use Rattle.capi.specs.Sites.{site_of};

use crate::refused::Refused;
use site::regular::RegularMap;
use site::target::TargetMap;

/// Racks of `each` nodes, of which those whose bit of `targets` is 1 may keep blocks.
#[repr(C)]
#[derive(Clone, Copy)]
pub struct VaultSite {
    pub racks: u32,
    pub each: u32,
    pub targets: u32,
}

/// The map of a site.
pub(crate) fn site_map(site: &VaultSite) -> Result<TargetMap<RegularMap>, Refused>
    ensures { MatchResult result
        (λ m. Fit site.now.racks site.now.each × (target m.word (regular m.map.racks m.map.each) ≡ site_of site.now))
        (λ e. (e ≡ OutsideRegular) × (Fit site.now.racks site.now.each → ⊥)) }
{
    let map = RegularMap::new(site.racks, site.each).map_err(|_| Refused::OutsideRegular)?;
    Ok(TargetMap::new(map, site.targets))
}
