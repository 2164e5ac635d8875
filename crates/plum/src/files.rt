//! The files that are read before the capture.

ghost use Rattle.std.specs.Prelude.{◌≡◌, ◌≤◌, length, IfOk, IfErr, OnOk};
ghost use Rattle.plum_base.specs.Sites.{AreStations, AreTargets};
ghost use Rattle.plum_host.specs.declared.host.In.TheVariants as inputs;
ghost use Rattle.plum_host.specs.Counting.{CountsNothing};
ghost use Rattle.plum_host.specs.Frames.{OnlyReads};
ghost use Rattle.plum_host.specs.Loading.{IsLoadedWhole};
ghost use Rattle.plum_host.specs.Told.{WhereTold};
ghost use Rattle.plum.specs.Causes.{IsCause};
ghost use Rattle.plum.specs.Files.{MOST_BYTES as most, IsFile, IsSetupFile, IsStationFile};
ghost use Rattle.plum.specs.Files.{IsTargetFile};
ghost use Rattle.plum.specs.Status.{CountsEnd};

use crate::status::{LimitOf, SitesFile, Status};
use plum_base::{Bytes, Setup, StationSite, TargetSite};
use plum_host::{Host, In, LoadFault, load};
use plum_sites::{SitesRefusal, read_stations, read_targets};
use plum_table::{TableFault, read_setup};
use std::alloc::Global;

/// The most bytes of a file.
const MOST_BYTES: u32 = 16_777_216;

/// The bytes of a file, or how the call ends without them.
fn load_file<H: Host>(alloc: Global, host: &mut H, file: In) -> Result<Bytes, Status>
    requires { IsFile file }
    ensures whole { IfOk result (λ bytes.
        IsLoadedWhole file bytes (H.told host.old) (H.told host.new)) }
    ensures within { IfOk result (λ bytes. length bytes ≤ most) }
    ensures cause { IfErr result (λ status.
        IsCause status file (H.told host.old) (H.told host.new)) }
    ensures no_fault { OnOk result (CountsNothing (H.told host.old) (H.told host.new)) }
    ensures fault { IfErr result (λ status. CountsEnd status (H.told host.old) (H.told host.new)) }
    ensures frame { OnlyReads file (H.told host.old) (H.told host.new) }
{
    match load(alloc, host, file, MOST_BYTES) {
        Ok(bytes) => Ok(bytes),
        Err(LoadFault::Read) => Err(Status::ReadFault),
        Err(LoadFault::TooLong { .. }) => Err(Status::Limit(LimitOf::File(file))),
        Err(LoadFault::NoMemory) => Err(Status::NoMemory),
    }
}

/// The setup that its file states, or how the call ends without it.
pub fn load_setup<H: Host>(alloc: Global, host: &mut H) -> Result<Setup, Status>
    ensures stated { IfOk result (λ setup.
        WhereTold (H.told host.old) inputs.Setup (IsSetupFile setup)) }
    ensures cause { IfErr result (λ status.
        IsCause status inputs.Setup (H.told host.old) (H.told host.new)) }
    ensures no_fault { OnOk result (CountsNothing (H.told host.old) (H.told host.new)) }
    ensures fault { IfErr result (λ status. CountsEnd status (H.told host.old) (H.told host.new)) }
    ensures frame { OnlyReads inputs.Setup (H.told host.old) (H.told host.new) }
{
    let bytes = load_file(alloc, host, In::Setup)?;
    match read_setup(alloc, bytes.as_slice()) {
        Ok(setup) => Ok(setup),
        Err(TableFault::Setup(fault)) => Err(Status::Setup(fault)),
        Err(TableFault::NoMemory) => Err(Status::NoMemory),
    }
}

/// The stations that their file states, or how the call ends without them.
pub fn load_stations<H: Host>(alloc: Global, host: &mut H) -> Result<Vec<StationSite>, Status>
    ensures stated { IfOk result (λ stations.
        WhereTold (H.told host.old) inputs.Stations (IsStationFile stations.items)) }
    ensures lawful { IfOk result (λ stations. AreStations stations.items) }
    ensures cause { IfErr result (λ status.
        IsCause status inputs.Stations (H.told host.old) (H.told host.new)) }
    ensures no_fault { OnOk result (CountsNothing (H.told host.old) (H.told host.new)) }
    ensures fault { IfErr result (λ status. CountsEnd status (H.told host.old) (H.told host.new)) }
    ensures frame { OnlyReads inputs.Stations (H.told host.old) (H.told host.new) }
{
    let bytes = load_file(alloc, host, In::Stations)?;
    match read_stations(alloc, bytes.as_slice()) {
        Ok(stations) => Ok(stations),
        Err(SitesRefusal::Sites(fault)) => Err(Status::Sites(SitesFile::Stations, fault)),
        Err(SitesRefusal::NoMemory) => Err(Status::NoMemory),
    }
}

/// The targets that their file states, or how the call ends without them.
pub fn load_targets<H: Host>(alloc: Global, host: &mut H) -> Result<Vec<TargetSite>, Status>
    ensures stated { IfOk result (λ targets.
        WhereTold (H.told host.old) inputs.Targets (IsTargetFile targets.items)) }
    ensures lawful { IfOk result (λ targets. AreTargets targets.items) }
    ensures cause { IfErr result (λ status.
        IsCause status inputs.Targets (H.told host.old) (H.told host.new)) }
    ensures no_fault { OnOk result (CountsNothing (H.told host.old) (H.told host.new)) }
    ensures fault { IfErr result (λ status. CountsEnd status (H.told host.old) (H.told host.new)) }
    ensures frame { OnlyReads inputs.Targets (H.told host.old) (H.told host.new) }
{
    let bytes = load_file(alloc, host, In::Targets)?;
    match read_targets(alloc, bytes.as_slice()) {
        Ok(targets) => Ok(targets),
        Err(SitesRefusal::Sites(fault)) => Err(Status::Sites(SitesFile::Targets, fault)),
        Err(SitesRefusal::NoMemory) => Err(Status::NoMemory),
    }
}
