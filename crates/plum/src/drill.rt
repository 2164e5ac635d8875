//! A drill: a centre's files from nothing but numbers.

ghost use Rattle.std.specs.Prelude.{◌≡◌, None, IfOk};
ghost use Rattle.plum_base.specs.Setup.{IsLaneCount};
ghost use Rattle.plum_host.specs.Memory.{host_of};
ghost use Rattle.plum.specs.DrillFiles.{drill_files, IsDrillSize};

mod capture;
mod generator;
mod numbers;
mod setup;
mod sites;
mod summary;

use capture::drill_capture;
use plum_base::{Bytes, NoMemory};
use plum_host::{MemFiles, MemHost};
use setup::{drill_setup, setup_text};
use sites::{drill_stations, drill_targets, stations_text, targets_text};
use std::alloc::Global;
pub use summary::drill_summary;

/// A host that never fails, with the files of a drill: a setup of so many lanes, stations, targets,
/// and a capture in which the seed decides each sample.
pub fn drill_host(
    alloc: Global,
    seed: u64,
    stations: u16,
    seconds: u16,
    lanes: u16,
) -> Result<MemHost, NoMemory>
    requires size { IsDrillSize stations seconds }
    requires lanes { IsLaneCount lanes }
    ensures { IfOk result (λ host. host
        ≡ host_of (drill_files seed stations seconds lanes) None None) }
{
    let setup = drill_setup(lanes);
    let sites = drill_stations(alloc, stations)?;
    let targets = drill_targets(alloc)?;
    let files = MemFiles {
        setup: setup_text(alloc, &setup)?,
        stations: stations_text(alloc, sites.as_slice())?,
        targets: targets_text(alloc, targets.as_slice())?,
        capture: drill_capture(alloc, seed, stations, seconds)?,
        journal: Bytes::new(alloc)?,
        output: Bytes::new(alloc)?,
    };
    MemHost::sound(alloc, files)
}
