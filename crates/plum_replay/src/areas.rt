//! The targets of each area.

ghost use Rattle.std.specs.Prelude.{◌≡◌, [], length, All, IfOk};
ghost use Rattle.plum_replay.specs.Areas.{AreByArea};

use plum_base::{NoMemory, Sites, TargetNo};
use std::alloc::Global;

/// So many lists, each without a target.
fn no_targets(alloc: Global, count: u16) -> Result<Vec<Vec<TargetNo>>, NoMemory>
    ensures count { IfOk result (λ lists. length lists.items ≡ count) }
    ensures none { IfOk result (λ lists. All (λ list. list.items ≡ []) lists.items) }
{
    let mut lists = Vec::new(alloc);
    for _ in 0..count {
        lists.push(Vec::new(alloc))?;
    }
    Ok(lists)
}

/// The targets of each area, in file order: a list for each area, by its number.
pub fn targets_by_area(alloc: Global, sites: &Sites) -> Result<Vec<Vec<TargetNo>>, NoMemory>
    ensures { IfOk result (λ lists. AreByArea sites.now.targets lists.items) }
{
    let mut lists = no_targets(alloc, sites.areas())?;
    for t in 0..sites.targets().len() as u16 {
        let target = TargetNo(t);
        let area = sites.area_of(target);
        lists[area.0 as usize].push(target)?;
    }
    Ok(lists)
}
