//! A round of a centre: its lanes take packets, its feeder publishes what they send, and its
//! sessions read, side by side on threads.

ghost use Rattle.std.specs.Prelude.{◌≡◌, ◌<◌, [], ◌∷◌, ◌++◌, length, map, All};
ghost use Rattle.std.specs.Prelude.{true, false, IfOk, OnOk};
ghost use Rattle.plum_centre.specs.Centre.{CentreId};
ghost use Rattle.plum_core.specs.Transcript.{of_lane};
ghost use Rattle.plum_lanes.specs.Opening.{Opening};
ghost use Rattle.plum_replay.specs.Pieces.{CanFeed, HasFed, CanTakeParts, TakeParts, AllLook};
ghost use Rattle.plum_replay.specs.Pieces.{IsDone, AreShares};
ghost use Rattle.plum_replay.specs.Pieces.{lane_in, session_in};
ghost use Rattle.plum_replay.specs.Rounds.{CanShare, HaveShared, CanWork, HasWorked};

mod feeding;
mod looking;
mod signals;
mod taking;

use crate::gate::Gate;
use crate::round::feeding::feed;
use crate::round::looking::{Watch, look_all};
use crate::round::signals::Signals;
use crate::round::taking::{Share, take_parts};
use plum_base::{NoMemory, Packet};
use plum_centre::{Centre, Feeder};
use plum_lanes::Lane;
use plum_snap::Session;
use std::alloc::Global;
use std::collections::VecDeque;
use std::sync::Wait;
use std::thread::{Threads, join_mut};
use std::{mem, thread};

/// The number of a lane or of a session, for the gate. There are far fewer.
fn number_of(i: usize) -> u16 {
    u16::try_from(i).unwrap_or(u16::MAX)
}

/// Each lane, without packets.
fn shares_of(alloc: Global, lanes: Vec<Lane>) -> Result<Vec<Share>, NoMemory>
    ensures lanes { IfOk result (λ shares. map lane_in shares.items ≡ lanes.items) }
    ensures none { IfOk result
        (λ shares. All (λ share. share.packets.items ≡ []) shares.items) }
{
    let mut shares = Vec::new(alloc);
    for lane in lanes {
        shares.push(Share {
            lane,
            packets: VecDeque::new(alloc),
        })?;
    }
    Ok(shares)
}

/// One packet more for a lane.
fn give(share: &mut Share, packet: Packet) -> Result<(), NoMemory>
    ensures lane { share.new.lane ≡ share.old.lane }
    ensures packets { OnOk result
        (share.new.packets.items ≡ share.old.packets.items ++ packet ∷ []) }
{
    Ok(share.packets.push_back(packet)?)
}

/// Each lane, with its packets of these.
fn share_out(alloc: Global, lanes: Vec<Lane>, packets: Vec<Packet>) -> Result<Vec<Share>, NoMemory>
    requires { 0 < length lanes.items }
    ensures { IfOk result (λ shares. AreShares lanes.items
        (λ i. of_lane (length lanes.items) i packets.items) shares.items) }
{
    let mut shares = shares_of(alloc, lanes)?;
    let count = shares.len();
    for packet in packets {
        let lane = packet.station.0 as usize % count;
        give(&mut shares[lane], packet)?;
    }
    Ok(shares)
}

/// The lanes again, which have taken all.
fn lanes_of(alloc: Global, shares: Vec<Share>) -> Result<Vec<Lane>, NoMemory>
    requires { All IsDone shares.items }
    ensures { IfOk result (λ lanes. lanes.items ≡ map lane_in shares.items) }
{
    let mut lanes = Vec::new(alloc);
    for share in shares {
        lanes.push(share.lane)?;
    }
    Ok(lanes)
}

/// Each session, which is to read.
fn watches_of(alloc: Global, sessions: Vec<Session>) -> Result<Vec<Watch>, NoMemory>
    ensures { IfOk result (λ watches. map session_in watches.items ≡ sessions.items) }
{
    let mut watches = Vec::new(alloc);
    for session in sessions {
        watches.push(Watch {
            session,
            done: false,
        })?;
    }
    Ok(watches)
}

/// The sessions again, unless one of them has not read.
fn sessions_of(alloc: Global, watches: Vec<Watch>) -> Result<Vec<Session>, NoMemory>
    ensures sessions { IfOk result (λ sessions. sessions.items ≡ map session_in watches.items) }
    ensures done { OnOk result (All (λ watch. watch.done ≡ true) watches.items) }
{
    let mut sessions = Vec::new(alloc);
    for watch in watches {
        if !watch.done {
            return Err(NoMemory);
        }
        sessions.push(watch.session)?;
    }
    Ok(sessions)
}

/// The lanes take their packets while the sessions read, on no more threads than there are lanes:
/// a reading is short, and a thread for it costs as much again.
fn take_and_look<R: Threads + Wait + Sync, G: Gate + Sync>(
    rt: &R,
    gate: &G,
    round: u32,
    signals: &Signals,
    shares: &mut [Share],
    watches: &mut [Watch],
)
    requires { (opening : Opening) × CanTakeParts opening shares.old }
    ensures take { TakeParts shares.old shares.new }
    ensures look { AllLook watches.old watches.new }
{
    let threads = shares.len();
    join_mut(
        rt,
        &mut ||
            ensures { AllLook watches.entry.now watches.exit.now }
        { look_all(rt, gate, round, signals, threads, watches) },
        &mut ||
            requires { (opening : Opening) × CanTakeParts opening shares.now }
            ensures { TakeParts shares.entry.now shares.exit.now }
        { take_parts(rt, gate, round, signals, shares) },
    );
}

/// The feeder turns beside them, until the lanes have ended. It turns last where no thread can be
/// made for it: a lane that finds the queue full then ends with packets left.
fn side_by_side<R: Threads + Wait + Sync, G: Gate + Sync>(
    rt: &R,
    gate: &G,
    round: u32,
    shares: &mut [Share],
    watches: &mut [Watch],
    feeder: &mut Feeder,
) -> Result<(), NoMemory>
    requires take { (opening : Opening) × CanTakeParts opening shares.old }
    requires feed { CanFeed feeder.old }
    ensures take { TakeParts shares.old shares.new }
    ensures look { AllLook watches.old watches.new }
    ensures fed { HasFed feeder.old feeder.new }
    ensures allowed { OnOk result (feeder.new.refused ≡ false) }
{
    let signals = Signals::new();
    let lanes = shares.len() as u64;
    let (fed, _) = join_mut(
        rt,
        &mut ||
            requires { CanFeed feeder.now }
            ensures { HasFed feeder.entry.now feeder.exit.now
                × OnOk result (feeder.exit.now.refused ≡ false) }
        { feed(rt, gate, round, &signals, lanes, feeder) },
        &mut ||
            requires { (opening : Opening) × CanTakeParts opening shares.now }
            ensures { TakeParts shares.entry.now shares.exit.now
                × AllLook watches.entry.now watches.exit.now }
        {
            // The feeder's thread may stand behind this one: it is to begin before the lanes do.
            thread::yield_now();
            take_and_look(rt, gate, round, &signals, shares, watches)
        },
    );
    fed
}

/// Whether every lane is done.
fn are_done(shares: &[Share]) -> bool
    ensures { result ≡ true → All IsDone shares.now }
{
    shares.iter().all(|share| share.is_done())
}

/// They go again, as long as a lane is not done. Each time the feeder has emptied the queue, so
/// that a lane goes on by an entry at least, also where no thread is ever made for the feeder.
fn go_again<R: Threads + Wait + Sync, G: Gate + Sync>(
    rt: &R,
    gate: &G,
    round: u32,
    shares: &mut [Share],
    feeder: &mut Feeder,
) -> Result<(), NoMemory>
    requires take { (opening : Opening) × CanTakeParts opening shares.old }
    requires feed { CanFeed feeder.old }
    requires allowed { feeder.old.refused ≡ false }
    ensures take { OnOk result (TakeParts shares.old shares.new) }
    ensures done { OnOk result (All IsDone shares.new) }
    ensures fed { HasFed feeder.old feeder.new }
    ensures allowed { OnOk result (feeder.new.refused ≡ false) }
{
    for _ in rt.forever() {
        if are_done(shares) {
            return Ok(());
        }
        side_by_side(rt, gate, round, shares, &mut [], feeder)?;
    }
    unreachable!()
}

/// The lanes take these packets while the feeder turns and the sessions read; then the lanes come
/// back.
fn work<R: Threads + Wait + Sync, G: Gate + Sync>(
    rt: &R,
    alloc: Global,
    gate: &G,
    round: u32,
    lanes: Vec<Lane>,
    packets: Vec<Packet>,
    watches: &mut [Watch],
    feeder: &mut Feeder,
) -> Result<Vec<Lane>, NoMemory>
    requires share { (opening : Opening) × CanShare opening packets.items lanes.items }
    requires feed { CanFeed feeder.old }
    ensures share { (opening : Opening) → CanShare opening packets.items lanes.items
        → IfOk result (λ back. HaveShared opening packets.items lanes.items back.items) }
    ensures look { OnOk result (AllLook watches.old watches.new) }
    ensures fed { HasFed feeder.old feeder.new }
    ensures allowed { OnOk result (feeder.new.refused ≡ false) }
{
    let mut shares = share_out(alloc, lanes, packets)?;
    let parts = shares.as_mut_slice();
    side_by_side(rt, gate, round, parts, watches, feeder)?;
    go_again(rt, gate, round, parts, feeder)?;
    lanes_of(alloc, shares)
}

/// A round: each lane takes its packets of these, and sends what they make; the feeder publishes
/// it; each session reads once, where they are to read.
///
/// After a refusal nothing is said of the centre but that its feeder is there to be ended.
pub(crate) fn work_round<R: Threads + Wait + Sync, G: Gate + Sync>(
    rt: &R,
    alloc: Global,
    centre: &mut Centre,
    gate: &G,
    round: u32,
    packets: Vec<Packet>,
    reads: bool,
) -> Result<(), NoMemory>
    requires can { (id : CentreId) × CanWork id packets.items centre.old }
    ensures { (id : CentreId) → CanWork id packets.items centre.old
        → OnOk result (HasWorked id packets.items reads centre.old centre.new) }
{
    let lanes = mem::replace(&mut centre.lanes, Vec::new(alloc));
    let feeder = &mut centre.feeder;
    if reads {
        let sessions = mem::replace(&mut centre.sessions, Vec::new(alloc));
        let mut watches = watches_of(alloc, sessions)?;
        let watched = watches.as_mut_slice();
        centre.lanes = work(rt, alloc, gate, round, lanes, packets, watched, feeder)?;
        centre.sessions = sessions_of(alloc, watches)?;
    } else {
        let mut watches = Vec::new(alloc);
        let watched = watches.as_mut_slice();
        centre.lanes = work(rt, alloc, gate, round, lanes, packets, watched, feeder)?;
    }
    Ok(())
}
