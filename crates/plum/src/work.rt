//! The work of a call.

ghost use Rattle.std.specs.Prelude.{◌≡◌, true, false, OnOk, IfOk, IfErr, IsTrue};
ghost use Rattle.plum_base.specs.Sites.{AreTargets};
ghost use Rattle.plum_host.specs.Counting.{CountsNothing};
ghost use Rattle.plum_host.specs.Frames.{OnlyReads};
ghost use Rattle.plum_host.specs.Told.{WhereTold};
ghost use Rattle.plum_host.specs.declared.host.In.TheVariants as inputs;
ghost use Rattle.plum.specs.declared.status.Status.TheVariants as ends;
ghost use Rattle.plum_replay.specs.Faults.{fault_of_write};
ghost use Rattle.plum.specs.Causes.{IsCause};
ghost use Rattle.plum.specs.Ended.{HasEnded, AreRead};
ghost use Rattle.plum.specs.Files.{uses_files, uses_targets, IsTargetFile};
ghost use Rattle.plum.specs.DrillFiles.{IsDrillSize};
ghost use Rattle.plum.specs.Job.{Job, drill, IsReplay, IsStation, IsCheck};
ghost use Rattle.plum.specs.Status.{CountsEnd, status_of};

use crate::drill::drill_summary;
use crate::files::{load_setup, load_stations, load_targets};
use crate::opening::{end_centre, open_centre};
use crate::status::{LimitOf, Status};
use crate::tally::Tally;
use crate::teller::Teller;
use crate::telling::tell_capture;
use crate::watch::Watch;
use plum_base::{NoMemory, Setup, Sites, TargetSite};
use plum_host::{Host, To, WriteRefusal, put_all};
use plum_replay::{Gate, ReplayFault, replay};
use std::alloc::Global;
use std::sync::Wait;
use std::thread::Threads;

impl From<NoMemory> for Status {
    ghost from_gives = { λ _ status. status ≡ ends.NoMemory };

    fn from(_refusal: NoMemory) -> Status {
        Status::NoMemory
    }
}

impl From<ReplayFault> for Status {
    ghost from_gives = { λ fault status. status ≡ status_of fault };

    fn from(fault: ReplayFault) -> Status {
        match fault {
            ReplayFault::Read => Status::ReadFault,
            ReplayFault::Write => Status::WriteFault,
            ReplayFault::Limit => Status::Limit(LimitOf::Records),
            ReplayFault::NoMemory => Status::NoMemory,
        }
    }
}

impl From<WriteRefusal> for Status {
    ghost from_gives = { λ refusal status. status ≡ status_of (fault_of_write refusal) };

    fn from(refusal: WriteRefusal) -> Status {
        match refusal {
            WriteRefusal::Failed => Status::WriteFault,
            WriteRefusal::NoMemory => Status::NoMemory,
        }
    }
}

/// What the files before the capture state.
#[derive(Drop)]
pub struct Stated {
    pub setup: Setup,
    pub sites: Sites,
}

/// The targets that their file states where they are wanted, else none.
fn load_wanted_targets<H: Host>(
    alloc: Global,
    wanted: bool,
    host: &mut H,
) -> Result<Vec<TargetSite>, Status>
    ensures stated { IsTrue wanted → IfOk result (λ targets.
        WhereTold (H.told host.old) inputs.Targets (IsTargetFile targets.items)) }
    ensures lawful { IfOk result (λ targets. AreTargets targets.items) }
    ensures untouched { wanted ≡ false → host.new ≡ host.old }
    ensures err { IfErr result (λ _. wanted ≡ true) }
    ensures cause { IfErr result (λ status.
        IsCause status inputs.Targets (H.told host.old) (H.told host.new)) }
    ensures no_fault { OnOk result (CountsNothing (H.told host.old) (H.told host.new)) }
    ensures fault { IfErr result (λ status. CountsEnd status (H.told host.old) (H.told host.new)) }
    ensures frame { OnlyReads inputs.Targets (H.told host.old) (H.told host.new) }
{
    if wanted {
        load_targets(alloc, host)
    } else {
        Ok(Vec::new(alloc))
    }
}

/// Reads the files before the capture, each where those before it are lawful: the targets where
/// the command uses them.
fn load_files<H: Host>(alloc: Global, with_targets: bool, host: &mut H) -> Result<Stated, Status>
    ensures read { (job : Job) → uses_files job ≡ true → uses_targets job ≡ with_targets
        → IfOk result (λ stated.
        AreRead job stated.setup stated.sites (H.told host.old) (H.told host.new)) }
    ensures ended { (job : Job) → uses_files job ≡ true → uses_targets job ≡ with_targets
        → IfErr result (λ status.
        HasEnded job status (H.told host.old) (H.told host.new)) }
{
    let setup = load_setup(alloc, host)?;
    // For the contract: the thresholds are a table.
    setup.levels.thresholds();
    let stations = load_stations(alloc, host)?;
    let targets = load_wanted_targets(alloc, with_targets, host)?;
    let sites = Sites::new(alloc, stations, targets)?;
    Ok(Stated { setup, sites })
}

/// Replays the capture over what the files state, by a centre of its own. Whatever the replay
/// answers, the feeder of the centre is used up.
pub fn replay_files<R: Threads + Wait + Sync, H: Host, G: Gate + Sync>(
    rt: &R,
    alloc: Global,
    host: &mut H,
    gate: &G,
) -> Result<(), Status>
    ensures done { (job : Job) → IsReplay job → OnOk result
        (HasEnded job Status.Done (H.told host.old) (H.told host.new)) }
    ensures ended { (job : Job) → IsReplay job → IfErr result (λ status.
        HasEnded job status (H.told host.old) (H.told host.new)) }
{
    let stated = load_files(alloc, true, host)?;
    let mut centre = open_centre(rt, alloc, &stated.sites, &stated.setup)?;
    let replayed = replay(
        rt,
        alloc,
        &stated.sites,
        &stated.setup,
        &mut centre,
        host,
        gate,
    );
    let _sessions = end_centre(rt, centre);
    replayed?;
    Ok(())
}

/// Writes the values of the station of this code.
pub fn show_station<H: Host>(alloc: Global, code: u16, host: &mut H) -> Result<(), Status>
    ensures done { (job : Job) → IsStation code job → OnOk result
        (HasEnded job Status.Done (H.told host.old) (H.told host.new)) }
    ensures ended { (job : Job) → IsStation code job → IfErr result (λ status.
        HasEnded job status (H.told host.old) (H.told host.new)) }
{
    let stated = load_files(alloc, false, host)?;
    let watch = Watch::new(alloc, &stated.setup, stated.sites.find(code))?;
    tell_capture(alloc, &stated.sites, Teller::Watching(watch), host)?;
    Ok(())
}

/// Writes what is refused of the capture, and its totals.
pub fn check_files<H: Host>(alloc: Global, host: &mut H) -> Result<(), Status>
    ensures done { (job : Job) → IsCheck job → OnOk result
        (HasEnded job Status.Done (H.told host.old) (H.told host.new)) }
    ensures ended { (job : Job) → IsCheck job → IfErr result (λ status.
        HasEnded job status (H.told host.old) (H.told host.new)) }
{
    let stated = load_files(alloc, true, host)?;
    let tally = Tally::new(alloc, stated.sites.stations().len())?;
    tell_capture(alloc, &stated.sites, Teller::Counting(tally), host)?;
    Ok(())
}

/// Replays a drill of this seed, so many stations and seconds, and writes its summary. It reads
/// nothing of the host.
pub fn show_drill<R: Threads + Wait + Sync, H: Host, G: Gate + Sync>(
    rt: &R,
    alloc: Global,
    seed: u64,
    stations: u16,
    seconds: u16,
    host: &mut H,
    gate: &G,
) -> Result<(), Status>
    requires size { IsDrillSize stations seconds }
    ensures done { OnOk result (HasEnded (drill seed stations seconds) Status.Done
        (H.told host.old) (H.told host.new)) }
    ensures ended { IfErr result (λ status. HasEnded (drill seed stations seconds) status
        (H.told host.old) (H.told host.new)) }
{
    let summary = drill_summary(rt, alloc, seed, stations, seconds, gate)?;
    put_all(host, To::Out, summary.as_slice())?;
    Ok(())
}
