//! A round, and what comes behind it: all that the lanes sent is published, and each session learns
//! of it.

ghost use Rattle.std.specs.Prelude.{◌≡◌, ◌≤◌, List, length, map, IfOk, OnOk, All};
ghost use Rattle.plum_base.specs.declared.packet.Packet.{Packet};
ghost use Rattle.plum_centre.specs.Centre.{CentreId};
ghost use Rattle.plum_replay.specs.Between.{CanGoOn, GoesOnBy, last_readings};
ghost use Rattle.plum_replay.specs.Learning.{HasLearned, HaveLearned};

use crate::gate::Gate;
use crate::round::work_round;
use plum_base::{NoMemory, Packet, Reading};
use plum_centre::{Centre, Feeder};
use plum_core::{histories, histories_by_lane, legal_transcripts};
use plum_lanes::gathered_are_kept;
use plum_snap::Session;
use std::alloc::Global;
use std::sync::Wait;
use std::thread::Threads;

/// The session learns what is published, and has then seen that and no more.
fn learn(feeder: &mut Feeder, session: &mut Session)
    requires { session.old.publisher ≡ feeder.old.publisher }
    ensures learned { HasLearned feeder.old.published session.old session.new }
    ensures same { feeder.new ≡ feeder.old }
{
    session.learn(feeder.receipt());
    feeder.shows_what_was_seen(session);
}

/// Each session learns what is published.
fn learn_all(feeder: &mut Feeder, sessions: &mut [Session])
    requires { All (λ session. session.publisher ≡ feeder.old.publisher) sessions.old }
    ensures learned { HaveLearned feeder.old.published sessions.old sessions.new }
    ensures same { feeder.new ≡ feeder.old }
{
    for session in sessions {
        learn(feeder, session);
    }
}

/// A round: each lane takes its packets of these, and in one in which the sessions read each
/// session reads. Behind it all that the lanes sent is gathered and published, and each session has
/// seen it. The feeder has the notes of this round and no others.
pub fn go_round<R: Threads + Wait + Sync, G: Gate + Sync>(
    rt: &R,
    alloc: Global,
    centre: &mut Centre,
    gate: &G,
    round: u32,
    packets: Vec<Packet>,
    reads: bool,
) -> Result<(), NoMemory>
    requires { (id : CentreId) × (earlier : List Packet)
        × CanGoOn id earlier packets.items centre.old }
    ensures goes_on { (id : CentreId) (earlier : List Packet)
        → CanGoOn id earlier packets.items centre.old
        → OnOk result (GoesOnBy id earlier packets.items reads centre.old centre.new) }
    ensures few { OnOk result (length centre.new.feeder.notes ≤ length packets.items) }
{
    // For the contract: what a history has of each lane, and how it goes on.
    histories();
    histories_by_lane();
    legal_transcripts();
    gathered_are_kept();
    centre.feeder.forget();
    work_round(rt, alloc, centre, gate, round, packets, reads)?;
    centre.close_round(rt)?;
    learn_all(&mut centre.feeder, centre.sessions.as_mut_slice());
    Ok(())
}

/// The last reading of each session.
pub fn copy_readings(alloc: Global, sessions: &[Session]) -> Result<Vec<Reading>, NoMemory>
    ensures { IfOk result (λ readings. readings.items ≡ last_readings sessions.now) }
{
    let mut readings = Vec::new(alloc);
    for session in sessions {
        let last = session.last();
        readings.push(Reading {
            front: last.front,
            answers: last.answers.copy()?,
        })?;
    }
    Ok(readings)
}
