//! The station of each code.

ghost use Rattle.std.specs.Prelude.{◌≤◌, length, IfOk};
ghost use Rattle.plum_base.specs.Sites.{MOST_STATIONS, AreByCode};

use crate::memory::NoMemory;
use crate::numbers::StationNo;
use crate::sites::StationSite;
use std::alloc::Global;

/// How many codes there are.
const CODES: usize = 1 << 16;

/// The station of each code, at the code, so that a packet's station is one look-up away.
pub fn stations_by_code(
    alloc: Global,
    stations: &[StationSite],
) -> Result<Vec<Option<StationNo>>, NoMemory>
    requires few { length stations.now ≤ MOST_STATIONS }
    ensures { IfOk result (λ v. AreByCode stations.now v.items) }
{
    let mut by_code = vec![in alloc; None; CODES]?;
    for (n, station) in stations.iter().enumerate() {
        by_code[usize::from(station.code)] = Some(StationNo(n as u16));
    }
    Ok(by_code)
}
