//! The work of a replay.

ghost use Rattle.std.specs.Prelude.{◌≡◌, ◌+◌, ◌≤◌, ℕ, List, [], ◌∷◌, ◌++◌, length, IfOk};
ghost use Rattle.std.specs.Prelude.{OnOk, OnErr, IfErr, IsErrOf, Option};
ghost use Rattle.plum_base.specs.Counts.{AddUp};
ghost use Rattle.plum_base.specs.Packet.{AreListed};
ghost use Rattle.plum_base.specs.declared.packet.Packet.{Packet};
ghost use Rattle.plum_base.specs.declared.setup.Setup.{Setup};
ghost use Rattle.plum_centre.specs.Centre.{CentreId, IsOf, IsNew};
ghost use Rattle.plum_host.specs.Counting.{CountsNothing};
ghost use Rattle.plum_host.specs.Frames.{LeavesInputs, LeavesOtherInputs};
ghost use Rattle.plum_host.specs.Told.{HostView};
ghost use Rattle.plum_host.specs.declared.host.In.TheVariants.{Capture};
ghost use Rattle.plum_packet.specs.Reading.{MOST_RECORDS, HoldsBodies, bodies_in};
ghost use Rattle.plum_packet.specs.Segments.{Decoded};
ghost use Rattle.plum_replay.specs.Begun.{AreTaken, AreAll, AppendsBegun, BeginsReplay};
ghost use Rattle.plum_replay.specs.Between.{IsBetweenRounds};
ghost use Rattle.plum_replay.specs.Captured.{FailsWithin, HasTooMany};
ghost use Rattle.plum_replay.specs.Faults.{CountsStop};
ghost use Rattle.plum_replay.specs.Progress.{IsAt, IsProgressOf, HasBegun};
ghost use Rattle.plum_replay.specs.Replayed.{ReplaysCapture, ReplaysThrough, counts_in_all};
ghost use Rattle.plum_replay.specs.Written.{HasWritten, WritesAll, WritesEnd};

use crate::fault::ReplayFault;
use crate::gate::Gate;
use crate::progress::{Counted, Progress};
use crate::section::put_end;
use crate::totals::Totals;
use crate::working::{read_last, take_and_read, take_first};
use plum_base::{Setup, Sites};
use plum_centre::Centre;
use plum_core::legal_transcripts;
use plum_host::{Host, To, put_all};
use plum_packet::{MOST_RECORDS, Segment, Segments};
use std::alloc::Global;
use std::sync::Wait;
use std::thread::Threads;

/// What is known once the capture was read to its end.
#[derive(Drop)]
struct Ended {
    /// What the section of the last mark will tell of its segment.
    counted: Counted,
    /// How many bytes stand behind the last whole record.
    tail: u32,
}

/// The round over the first segment: its journal lines are written.
fn put_first<R: Threads + Wait + Sync, H: Host, G: Gate + Sync>(
    rt: &R,
    alloc: Global,
    sites: &Sites,
    progress: &mut Progress,
    centre: &mut Centre,
    segment: Segment,
    host: &mut H,
    gate: &G,
) -> Result<Counted, ReplayFault>
    requires of { IsProgressOf progress.old sites.now }
    requires at { (id : CentreId) × (setup : Setup) × (earlier : List Packet)
        × IsAt id setup sites.now earlier progress.old centre.old }
    requires listed { AreListed (length sites.now.stations) segment.packets.items }
    requires few { progress.old.counts.bodies + bodies_in segment ≤ MOST_RECORDS }
    requires few_segments { progress.old.segments ≤ MOST_RECORDS }

    ensures of { IsProgressOf progress.new sites.now }
    ensures at { OnOk result ((id : CentreId) (setup : Setup) (earlier : List Packet)
        → IsAt id setup sites.now earlier progress.old centre.old
        → IsAt id setup sites.now (earlier ++ segment.packets.items) progress.new centre.new) }
    ensures segments { OnOk result (progress.new.segments ≡ progress.old.segments + 1) }
    ensures bodies { OnOk result
        (progress.new.counts.bodies ≡ progress.old.counts.bodies + bodies_in segment) }

    ensures written { IfOk result (λ counted. (id : CentreId) (setup : Setup)
        (decoded : List Decoded)
        → HasBegun id setup sites.now progress.old centre.old → HoldsBodies segment decoded
        → HasWritten id setup sites.now [] decoded progress.new counted centre.new
        (H.told host.old) (H.told host.new)) }
    ensures in_order { OnErr result ((id : CentreId) (setup : Setup) (decoded : List Decoded)
        → HasBegun id setup sites.now progress.old centre.old → HoldsBodies segment decoded
        → (capture : List ℕ) (left : Option (List ℕ))
        → AreTaken sites.now.stations capture left (decoded ∷ [])
        → AppendsBegun setup sites.now capture left (H.told host.old) (H.told host.new)) }

    ensures no_read { ¬ IsErrOf result ReplayFault.Read }
    ensures no_limit { ¬ IsErrOf result ReplayFault.Limit }
    ensures no_fault { OnOk result (CountsNothing (H.told host.old) (H.told host.new)) }
    ensures fault { IfErr result (λ fault. CountsStop fault (H.told host.old) (H.told host.new)) }
    ensures inputs { LeavesInputs (H.told host.old) (H.told host.new) }
{
    // For the contract: what is legal where nothing was replayed.
    legal_transcripts();
    let taken = take_first(rt, alloc, sites, progress, centre, segment, gate)?;
    put_all(host, To::Journal, taken.journal.as_slice())?;
    Ok(taken.counted)
}

/// A round over a later segment: its journal lines are written, and behind them the section of the
/// mark before it.
fn put_next<R: Threads + Wait + Sync, H: Host, G: Gate + Sync>(
    rt: &R,
    alloc: Global,
    sites: &Sites,
    progress: &mut Progress,
    centre: &mut Centre,
    counted: Counted,
    segment: Segment,
    host: &mut H,
    gate: &G,
) -> Result<Counted, ReplayFault>
    requires of { IsProgressOf progress.old sites.now }
    requires at { (id : CentreId) × (setup : Setup) × (earlier : List Packet)
        × IsAt id setup sites.now earlier progress.old centre.old }
    requires listed { AreListed (length sites.now.stations) segment.packets.items }
    requires few { progress.old.counts.bodies + bodies_in segment ≤ MOST_RECORDS }
    requires few_segments { progress.old.segments ≤ MOST_RECORDS }

    ensures of { IsProgressOf progress.new sites.now }
    ensures at { OnOk result ((id : CentreId) (setup : Setup) (earlier : List Packet)
        → IsAt id setup sites.now earlier progress.old centre.old
        → IsAt id setup sites.now (earlier ++ segment.packets.items) progress.new centre.new) }
    ensures segments { OnOk result (progress.new.segments ≡ progress.old.segments + 1) }
    ensures bodies { OnOk result
        (progress.new.counts.bodies ≡ progress.old.counts.bodies + bodies_in segment) }

    ensures written { IfOk result (λ next. (id : CentreId) (setup : Setup)
        (done : List (List Decoded)) (last decoded : List Decoded) (before : HostView)
        → HasWritten id setup sites.now done last progress.old counted centre.old before
        (H.told host.old) → HoldsBodies segment decoded
        → HasWritten id setup sites.now (done ++ last ∷ []) decoded progress.new next centre.new
        before (H.told host.new)) }
    ensures in_order { OnErr result ((id : CentreId) (setup : Setup)
        (done : List (List Decoded)) (last decoded : List Decoded) (before : HostView)
        → HasWritten id setup sites.now done last progress.old counted centre.old before
        (H.told host.old) → HoldsBodies segment decoded
        → (capture : List ℕ) (left : Option (List ℕ))
        → AreTaken sites.now.stations capture left ((done ++ last ∷ []) ++ decoded ∷ [])
        → AppendsBegun setup sites.now capture left before (H.told host.new)) }

    ensures no_read { ¬ IsErrOf result ReplayFault.Read }
    ensures no_limit { ¬ IsErrOf result ReplayFault.Limit }
    ensures no_fault { OnOk result (CountsNothing (H.told host.old) (H.told host.new)) }
    ensures fault { IfErr result (λ fault. CountsStop fault (H.told host.old) (H.told host.new)) }
    ensures inputs { LeavesInputs (H.told host.old) (H.told host.new) }
{
    let told = take_and_read(rt, alloc, sites, progress, centre, counted, segment, gate)?;
    put_all(host, To::Journal, told.taken.journal.as_slice())?;
    put_all(host, To::Out, told.section.as_slice())?;
    Ok(told.taken.counted)
}

/// The last round: the section of the last mark is written, with the tail and the totals.
fn put_last<R: Threads + Wait + Sync, H: Host, G: Gate + Sync>(
    rt: &R,
    alloc: Global,
    sites: &Sites,
    progress: &mut Progress,
    centre: &mut Centre,
    ended: Ended,
    host: &mut H,
    gate: &G,
) -> Result<Totals, ReplayFault>
    requires of { IsProgressOf progress.old sites.now }
    requires at { (id : CentreId) × (setup : Setup) × (earlier : List Packet)
        × IsAt id setup sites.now earlier progress.old centre.old }
    requires few { progress.old.counts.bodies ≤ MOST_RECORDS }

    ensures sums { IfOk result (λ totals. AddUp (counts_in_all totals)) }
    ensures at { OnOk result ((id : CentreId) (setup : Setup) (earlier : List Packet)
        → IsAt id setup sites.now earlier progress.old centre.old
        → IsBetweenRounds id earlier centre.new) }

    ensures written { IfOk result (λ totals. (id : CentreId) (setup : Setup)
        (done : List (List Decoded)) (last : List Decoded) (before : HostView)
        → HasWritten id setup sites.now done last progress.old ended.counted centre.old before
        (H.told host.old)
        → WritesEnd id setup sites.now (done ++ last ∷ []) ended.tail totals centre.new before
        (H.told host.new)) }
    ensures in_order { OnErr result ((id : CentreId) (setup : Setup)
        (done : List (List Decoded)) (last : List Decoded) (before : HostView)
        → HasWritten id setup sites.now done last progress.old ended.counted centre.old before
        (H.told host.old)
        → (capture : List ℕ) (left : Option (List ℕ))
        → AreAll sites.now.stations capture left (done ++ last ∷ []) ended.tail
        → AppendsBegun setup sites.now capture left before (H.told host.new)) }

    ensures no_read { ¬ IsErrOf result ReplayFault.Read }
    ensures no_limit { ¬ IsErrOf result ReplayFault.Limit }
    ensures no_fault { OnOk result (CountsNothing (H.told host.old) (H.told host.new)) }
    ensures fault { IfErr result (λ fault. CountsStop fault (H.told host.old) (H.told host.new)) }
    ensures inputs { LeavesInputs (H.told host.old) (H.told host.new) }
{
    let Ended { counted, tail } = ended;
    let mut output = read_last(rt, alloc, sites, progress, centre, counted, gate)?;
    let totals = progress.totals(tail);
    put_end(&mut output, &totals)?;
    put_all(host, To::Out, output.as_slice())?;
    Ok(totals)
}

/// Reads the capture segment by segment, to its end, and goes a round over each.
fn put_segments<R: Threads + Wait + Sync, H: Host, G: Gate + Sync>(
    rt: &R,
    alloc: Global,
    sites: &Sites,
    progress: &mut Progress,
    centre: &mut Centre,
    host: &mut H,
    gate: &G,
) -> Result<Ended, ReplayFault>
    requires of { IsProgressOf progress.old sites.now }
    requires nothing { (progress.old.segments ≡ 0) × (progress.old.counts.bodies ≡ 0) }
    requires at { (id : CentreId) × (setup : Setup)
        × IsAt id setup sites.now [] progress.old centre.old }

    ensures of { IsProgressOf progress.new sites.now }
    ensures few { OnOk result (progress.new.counts.bodies ≤ MOST_RECORDS) }
    ensures at { OnOk result ((id : CentreId) (setup : Setup)
        → IsAt id setup sites.now [] progress.old centre.old
        → (packets : List Packet) × IsAt id setup sites.now packets progress.new centre.new) }

    ensures written { IfOk result (λ ended. (id : CentreId) (setup : Setup)
        → HasBegun id setup sites.now progress.old centre.old
        → WritesAll id setup sites.now progress.new ended.counted ended.tail centre.new
        (H.told host.old) (H.told host.new)) }
    ensures in_order { OnErr result ((id : CentreId) (setup : Setup)
        → HasBegun id setup sites.now progress.old centre.old
        → BeginsReplay setup sites.now (H.told host.old) (H.told host.new)) }

    ensures read { IsErrOf result ReplayFault.Read
        → FailsWithin (H.told host.old) (H.told host.new) }
    ensures limit { IsErrOf result ReplayFault.Limit → HasTooMany (H.told host.old) }
    ensures no_fault { OnOk result (CountsNothing (H.told host.old) (H.told host.new)) }
    ensures fault { IfErr result (λ fault. CountsStop fault (H.told host.old) (H.told host.new)) }
    ensures other_inputs { LeavesOtherInputs Capture (H.told host.old) (H.told host.new) }
{
    // For the contract: what is legal where nothing was replayed.
    legal_transcripts();
    let mut reader = Segments::new(alloc, MOST_RECORDS)?;
    let Some(first) = reader.next(alloc, sites, host)? else {
        // A capture has a segment.
        unreachable!()
    };
    let mut counted = put_first(rt, alloc, sites, progress, centre, first, host, gate)?;
    'rounds: while let Some(segment) = reader.next(alloc, sites, host)? {
        counted = put_next(
            rt, alloc, sites, progress, centre, counted, segment, host, gate,
        )?;
    }
    Ok(Ended {
        counted,
        tail: reader.tail(),
    })
}

/// Replays the capture by a centre, round by round. It reads a segment; its lanes take the packets
/// of it while the sessions read for the mark before it; then the journal lines of the segment are
/// written, and behind them the section of that mark. Behind the last segment the sessions read for
/// the last mark, and its section, the tail and the totals are written. The journal is opened
/// before anything is read.
///
/// After a fault nothing is said of the centre: whoever has it ends its feeder.
pub fn replay<R: Threads + Wait + Sync, H: Host, G: Gate + Sync>(
    rt: &R,
    alloc: Global,
    sites: &Sites,
    setup: &Setup,
    centre: &mut Centre,
    host: &mut H,
    gate: &G,
) -> Result<Totals, ReplayFault>
    // The centre is of these sites and this setup, and new.
    requires { (id : CentreId) × IsOf setup.now sites.now id × IsNew id centre.old }

    // The two texts of one legal transcript are appended, and the capture is read to its end.
    ensures texts { IfOk result (λ totals. ReplaysCapture setup.now sites.now totals
        (H.told host.old) (H.told host.new)) }
    ensures sums { IfOk result (λ totals. AddUp (counts_in_all totals)) }

    // The centre holds the journal of that transcript, and its sessions the readings at the last
    // mark. Whatever the host tells, it is between two rounds.
    ensures centre { IfOk result (λ totals. (id : CentreId) → IsOf setup.now sites.now id
        → IsNew id centre.old → ReplaysThrough id setup.now sites.now totals
        (H.told host.old) (H.told host.new) centre.new) }
    ensures between { OnOk result ((id : CentreId) → IsOf setup.now sites.now id
        → IsNew id centre.old
        → (packets : List Packet) × IsBetweenRounds id packets centre.new) }

    // A read fails within the limit of records, and before another one is whole.
    ensures read { IsErrOf result ReplayFault.Read
        → FailsWithin (H.told host.old) (H.told host.new) }
    ensures limit { IsErrOf result ReplayFault.Limit → HasTooMany (H.told host.old) }

    // Where a fault stops it, the beginnings of two such texts are appended, in order.
    ensures in_order { OnErr result (BeginsReplay setup.now sites.now
        (H.told host.old) (H.told host.new)) }

    // The one fault that stopped it is counted, and nothing else.
    ensures no_fault { OnOk result (CountsNothing (H.told host.old) (H.told host.new)) }
    ensures fault { IfErr result (λ fault. CountsStop fault (H.told host.old) (H.told host.new)) }

    ensures other_inputs { LeavesOtherInputs Capture (H.told host.old) (H.told host.new) }
{
    // For the contract: what is legal where nothing was replayed.
    legal_transcripts();
    // An empty piece: a real file is made and emptied by it, where no line follows too.
    host.write(To::Journal, b"")?;
    let mut progress = Progress::new(alloc, sites, setup)?;
    let ended = put_segments(rt, alloc, sites, &mut progress, centre, host, gate)?;
    put_last(rt, alloc, sites, &mut progress, centre, ended, host, gate)
}
