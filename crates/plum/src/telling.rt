//! A capture told record by record.

ghost use Rattle.std.specs.Prelude.{◌≡◌, length, OnOk, OnErr, IfErr, IsErrOf};
ghost use Rattle.plum_base.specs.declared.setup.Setup.{Setup};
ghost use Rattle.plum_host.specs.Counting.{CountsNothing};
ghost use Rattle.plum_host.specs.Frames.{LeavesOtherInputs};
ghost use Rattle.plum_host.specs.Told.{WhereTold};
ghost use Rattle.plum_host.specs.declared.host.In.TheVariants.{Capture};
ghost use Rattle.plum_replay.specs.Captured.{FailsWithin, HasTooMany};
ghost use Rattle.plum_replay.specs.Faults.{CountsStop};
ghost use Rattle.plum.specs.Job.{Job};
ghost use Rattle.plum.specs.Plain.{AppendsPlain, AppendsPlainBegun, LeavesJournal};
ghost use Rattle.plum.specs.Telling.{counted, IsOver, IsTellerOf, HasToldNothing};

use crate::teller::Teller;
use plum_base::Sites;
use plum_core::histories;
use plum_host::{Host, To, put_all};
use plum_packet::{Bodies, given_bodies_begin, segments_hold_each_body};
use plum_replay::ReplayFault;
use std::alloc::Global;

/// Reads the capture to its end, and writes what is told of each record, and of the end. It holds
/// one record of the capture, and what it writes next.
pub fn tell_capture<H: Host>(
    alloc: Global,
    sites: &Sites,
    mut teller: Teller,
    host: &mut H,
) -> Result<(), ReplayFault>
    requires over { IsOver teller (length sites.now.stations) }
    requires none { counted teller ≡ 0 }

    // The text of the command is appended, and the capture is read to its end.
    ensures text { OnOk result ((job : Job) (setup : Setup)
        → IsTellerOf teller job sites.now.stations
        → HasToldNothing teller setup sites.now.stations
        → WhereTold (H.told host.old) Capture (λ capture. AppendsPlain job setup
        sites.now.stations capture (H.told host.old) (H.told host.new))) }

    // What is appended before a fault begins that text.
    ensures begun { OnErr result ((job : Job) (setup : Setup)
        → IsTellerOf teller job sites.now.stations
        → HasToldNothing teller setup sites.now.stations
        → WhereTold (H.told host.old) Capture (λ capture. AppendsPlainBegun job setup
        sites.now.stations capture (H.told host.old) (H.told host.new))) }

    // A read fails within the limit of records, and before another one is whole.
    ensures read { IsErrOf result ReplayFault.Read
        → FailsWithin (H.told host.old) (H.told host.new) }
    ensures limit { IsErrOf result ReplayFault.Limit → HasTooMany (H.told host.old) }

    // The one fault that stopped it is counted, and nothing else.
    ensures no_fault { OnOk result (CountsNothing (H.told host.old) (H.told host.new)) }
    ensures fault { IfErr result (λ fault. CountsStop fault (H.told host.old) (H.told host.new)) }

    ensures journal { LeavesJournal (H.told host.old) (H.told host.new) }
    ensures other_inputs { LeavesOtherInputs Capture (H.told host.old) (H.told host.new) }
{
    // For the contract: what was told so far begins the text, and no two stations have one code.
    segments_hold_each_body();
    given_bodies_begin();
    histories();
    let _stations = sites.stations();
    let mut reader = Bodies::new(alloc)?;
    'records: while let Some(found) = reader.next(alloc, sites, host)? {
        let told = teller.take(alloc, found)?;
        put_all(host, To::Out, told.as_slice())?;
    }
    let end = teller.end(alloc, reader.segments(), reader.tail())?;
    put_all(host, To::Out, end.as_slice())?;
    Ok(())
}
