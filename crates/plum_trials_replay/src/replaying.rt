//! A replay by a centre of its own, and what a session has read then.

use plum_base::{Setup, Sites, Tenths};
use plum_centre::Centre;
use plum_host::Host;
use plum_replay::{Gate, ReplayFault, replay};
use plum_snap::{Doors, Session};
use plum_trials_given::sites_of;
use std::alloc::Global;
use std::sync::Wait;
use std::test::Fail;
use std::thread::Threads;

/// So many stations, and a target `t1` in the area `a`, all in one place.
pub fn stations_in_one_place(alloc: Global, count: u16) -> Result<Sites, Fail> {
    sites_of(alloc, count, 0, &[("t1", "a", 0)])
}

/// The front of a reading, and its first answer.
pub type Seen = (u64, Option<Tenths>);

/// How a replay ended.
#[derive(Drop)]
pub struct Ended {
    /// None where it ended well.
    pub fault: Option<ReplayFault>,
    /// The last reading of the first session.
    pub last: Option<Seen>,
}

fn last_of(sessions: &[Session]) -> Option<Seen> {
    let last = sessions.first()?.last();
    Some((last.front, last.answers.as_slice().first().copied()?))
}

/// Replays the capture of a host through a gate, by a new centre, and ends its feeder.
pub fn replay_once<R: Threads + Wait + Sync, H: Host, G: Gate + Sync>(
    rt: &R,
    alloc: Global,
    sites: &Sites,
    setup: &Setup,
    host: &mut H,
    gate: &G,
) -> Result<Ended, Fail> {
    let mut doors = Doors::new();
    let Ok(mut centre) = Centre::open(rt, alloc, sites, setup, &mut doors) else {
        return Err("no place")?;
    };
    let replayed = replay(rt, alloc, sites, setup, &mut centre, host, gate);
    let Centre {
        lanes: _lanes,
        feeder,
        sessions,
    } = centre;
    feeder.end(rt);
    Ok(Ended {
        fault: replayed.err(),
        last: last_of(sessions.as_slice()),
    })
}
