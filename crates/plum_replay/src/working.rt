//! A replay's rounds, without what is read and written: over a segment and over none.

ghost use Rattle.std.specs.Prelude.{◌≡◌, ◌+◌, ◌≤◌, ℕ, Bool, List, [], ◌∷◌, ◌++◌, length, IfOk};
ghost use Rattle.std.specs.Prelude.{OnOk, true};
ghost use Rattle.plum_base.specs.Packet.{AreListed};
ghost use Rattle.plum_base.specs.declared.packet.Packet.{Packet};
ghost use Rattle.plum_base.specs.declared.setup.Setup.{Setup};
ghost use Rattle.plum_centre.specs.Centre.{CentreId};
ghost use Rattle.plum_core.specs.Transcript.{Transcript};
ghost use Rattle.plum_packet.specs.Reading.{MOST_RECORDS, HoldsBodies, bodies_in};
ghost use Rattle.plum_packet.specs.Segments.{Decoded};
ghost use Rattle.plum_replay.specs.Progress.{IsAt, IsProgressOf, HasWorkedOn, TakesOneMore};
ghost use Rattle.plum_replay.specs.Progress.{HasBegun, ReplaysFirst, HasReplayed, ReplaysOneMore};
ghost use Rattle.plum_replay.specs.Progress.{EndsReplay};
ghost use Rattle.plum_text.specs.Texts.{Section};

use crate::between::{copy_readings, go_round};
use crate::gate::Gate;
use crate::journal::put_notes;
use crate::progress::{Counted, Progress};
use plum_base::{Bytes, NoMemory, Sites};
use plum_centre::Centre;
use plum_core::legal_transcripts;
use plum_packet::{Segment, bodies_are_counted};
use std::alloc::Global;
use std::sync::Wait;
use std::thread::Threads;

/// What a round over a segment makes: the journal lines of the segment, and what its mark will tell
/// of it.
#[derive(Drop)]
pub struct Taken {
    pub journal: Bytes,
    pub counted: Counted,
}

/// And the section of the mark before it.
#[derive(Drop)]
pub struct Told {
    pub taken: Taken,
    pub section: Bytes,
}

/// A round over a segment: its packets are taken.
fn take_segment<R: Threads + Wait + Sync, G: Gate + Sync>(
    rt: &R,
    alloc: Global,
    sites: &Sites,
    progress: &mut Progress,
    centre: &mut Centre,
    segment: Segment,
    gate: &G,
    reads: bool,
) -> Result<Taken, NoMemory>
    requires at { (id : CentreId) × (setup : Setup) × (earlier : List Packet)
        × IsAt id setup sites.now earlier progress.old centre.old }
    requires listed { AreListed (length sites.now.stations) segment.packets.items }
    requires few { progress.old.counts.bodies + bodies_in segment ≤ MOST_RECORDS }
    requires few_segments { progress.old.segments ≤ MOST_RECORDS }

    ensures at { OnOk result ((id : CentreId) (setup : Setup) (earlier : List Packet)
        → IsAt id setup sites.now earlier progress.old centre.old
        → IsAt id setup sites.now (earlier ++ segment.packets.items) progress.new centre.new) }
    ensures segments { OnOk result (progress.new.segments ≡ progress.old.segments + 1) }
    ensures bodies { OnOk result
        (progress.new.counts.bodies ≡ progress.old.counts.bodies + bodies_in segment) }
    ensures by_area { progress.new.by_area ≡ progress.old.by_area }
    ensures desks { progress.new.desks ≡ progress.old.desks }
    // Over all segments so far.
    ensures takes { IfOk result (λ taken. (id : CentreId) (setup : Setup)
        (segments : List (List Decoded)) (read : ℕ) (t : Transcript) (decoded : List Decoded)
        → read ≤ length segments
        → HasWorkedOn id setup sites.now segments read t progress.old centre.old
        → HoldsBodies segment decoded
        → TakesOneMore id setup sites.now segments read t decoded reads progress.old taken.journal
        taken.counted progress.new centre.new) }
{
    // For the contract: how a transcript and the counts go on.
    legal_transcripts();
    bodies_are_counted();
    let Segment { packets, refused } = segment;
    let count = packets.len() as u32;
    let (number, before) = (progress.segments + 1, progress.counts.kept);
    go_round(rt, alloc, centre, gate, progress.segments, packets, reads)?;
    let notes = centre.feeder.notes().as_slice();
    let mut journal = Bytes::new(alloc)?;
    put_notes(&mut journal, sites.stations(), number, before, notes)?;
    let counted = progress.count(count, notes.len() as u32, refused);
    Ok(Taken { journal, counted })
}

/// The round over the first segment: no session reads.
pub fn take_first<R: Threads + Wait + Sync, G: Gate + Sync>(
    rt: &R,
    alloc: Global,
    sites: &Sites,
    progress: &mut Progress,
    centre: &mut Centre,
    segment: Segment,
    gate: &G,
) -> Result<Taken, NoMemory>
    requires of { IsProgressOf progress.old sites.now }
    requires at { (id : CentreId) × (setup : Setup) × (earlier : List Packet)
        × IsAt id setup sites.now earlier progress.old centre.old }
    requires listed { AreListed (length sites.now.stations) segment.packets.items }
    requires few { progress.old.counts.bodies + bodies_in segment ≤ MOST_RECORDS }
    requires few_segments { progress.old.segments ≤ MOST_RECORDS }

    ensures of { IsProgressOf progress.new sites.now }
    ensures at { OnOk result ((id : CentreId) (setup : Setup) (earlier : List Packet)
        → IsAt id setup sites.now earlier progress.old centre.old
        → IsAt id setup sites.now (earlier ++ segment.packets.items) progress.new centre.new) }
    ensures segments { OnOk result (progress.new.segments ≡ progress.old.segments + 1) }
    ensures bodies { OnOk result
        (progress.new.counts.bodies ≡ progress.old.counts.bodies + bodies_in segment) }
    ensures replays { IfOk result (λ taken. (id : CentreId) (setup : Setup)
        (decoded : List Decoded)
        → HasBegun id setup sites.now progress.old centre.old
        → HoldsBodies segment decoded
        → ReplaysFirst id setup sites.now decoded taken.journal taken.counted progress.new
        centre.new) }
{
    take_segment(rt, alloc, sites, progress, centre, segment, gate, false)
}

/// A round over a later segment: the sessions read for the mark before it.
pub fn take_and_read<R: Threads + Wait + Sync, G: Gate + Sync>(
    rt: &R,
    alloc: Global,
    sites: &Sites,
    progress: &mut Progress,
    centre: &mut Centre,
    counted: Counted,
    segment: Segment,
    gate: &G,
) -> Result<Told, NoMemory>
    requires of { IsProgressOf progress.old sites.now }
    requires at { (id : CentreId) × (setup : Setup) × (earlier : List Packet)
        × IsAt id setup sites.now earlier progress.old centre.old }
    requires listed { AreListed (length sites.now.stations) segment.packets.items }
    requires few { progress.old.counts.bodies + bodies_in segment ≤ MOST_RECORDS }
    requires few_segments { progress.old.segments ≤ MOST_RECORDS }

    ensures of { IsProgressOf progress.new sites.now }
    ensures at { OnOk result ((id : CentreId) (setup : Setup) (earlier : List Packet)
        → IsAt id setup sites.now earlier progress.old centre.old
        → IsAt id setup sites.now (earlier ++ segment.packets.items) progress.new centre.new) }
    ensures segments { OnOk result (progress.new.segments ≡ progress.old.segments + 1) }
    ensures bodies { OnOk result
        (progress.new.counts.bodies ≡ progress.old.counts.bodies + bodies_in segment) }
    ensures replays { IfOk result (λ told. (id : CentreId) (setup : Setup)
        (done : List (List Decoded)) (last : List Decoded) (t : Transcript)
        (sections : List Section) (decoded : List Decoded)
        → HasReplayed id setup sites.now done last t sections progress.old counted centre.old
        → HoldsBodies segment decoded
        → ReplaysOneMore id setup sites.now done last t sections decoded told.taken.journal
        told.section told.taken.counted progress.new centre.new) }
{
    // For the contract: how a transcript and the counts go on.
    legal_transcripts();
    bodies_are_counted();
    let mark = progress.segments;
    let taken = take_segment(rt, alloc, sites, progress, centre, segment, gate, true)?;
    let readings = copy_readings(alloc, centre.sessions.as_slice())?;
    let section = progress.tell(alloc, sites, mark, counted, readings)?;
    Ok(Told { taken, section })
}

/// The last round, over no segment: the sessions read for the last mark, whose section this is.
pub fn read_last<R: Threads + Wait + Sync, G: Gate + Sync>(
    rt: &R,
    alloc: Global,
    sites: &Sites,
    progress: &mut Progress,
    centre: &mut Centre,
    counted: Counted,
    gate: &G,
) -> Result<Bytes, NoMemory>
    requires of { IsProgressOf progress.old sites.now }
    requires at { (id : CentreId) × (setup : Setup) × (earlier : List Packet)
        × IsAt id setup sites.now earlier progress.old centre.old }
    requires few { progress.old.counts.bodies ≤ MOST_RECORDS }

    ensures segments { progress.new.segments ≡ progress.old.segments }
    ensures counts { progress.new.counts ≡ progress.old.counts }
    ensures ends { IfOk result (λ section. (id : CentreId) (setup : Setup)
        (done : List (List Decoded)) (last : List Decoded) (t : Transcript)
        (sections : List Section)
        → HasReplayed id setup sites.now done last t sections progress.old counted centre.old
        → EndsReplay id setup sites.now done last t sections section progress.new centre.new) }
    ensures at { OnOk result ((id : CentreId) (setup : Setup) (earlier : List Packet)
        → IsAt id setup sites.now earlier progress.old centre.old
        → IsAt id setup sites.now earlier progress.new centre.new) }
{
    // For the contract: how a transcript and the counts go on.
    legal_transcripts();
    bodies_are_counted();
    let mark = progress.segments;
    go_round(rt, alloc, centre, gate, mark, Vec::new(alloc), true)?;
    let readings = copy_readings(alloc, centre.sessions.as_slice())?;
    progress.tell(alloc, sites, mark, counted, readings)
}
