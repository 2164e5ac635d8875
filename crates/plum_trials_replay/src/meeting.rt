//! Rounds whose steps must meet, and rounds of two lanes.

ghost use Rattle.plum_base.specs.Setup.{IsLaneCount, IsQueueBound};

use crate::captures::{fifty_of_each, mark_between, three_segments, two_behind_a_mark};
use crate::gates::{Meeting, Numbers, Within};
use crate::lines::{FIFTY_OF_EACH, MARK_BETWEEN_TWO, TWO_BEHIND_A_MARK};
use crate::replaying::{replay_once, stations_in_one_place};
use plum_base::Bytes;
use plum_host::{MemHost, To};
use plum_replay::{Gate, OpenGate};
use plum_trials_given::{host_of, setup_of, sites_of};
use std::alloc::Global;
use std::process::Abort;
use std::sync::Wait;
use std::test::Fail;
use std::thread::Threads;

/// So many bytes a host moves in a call.
const STEP: u32 = 65_536;

/// Replays a capture of as many stations as lanes, and gives the host.
fn replayed<R: Threads + Wait + Abort + Sync, G: Gate + Sync>(
    rt: &R,
    alloc: Global,
    capture: Bytes,
    lanes: u16,
    queue: u32,
    gate: &G,
) -> Result<MemHost, Fail>
    requires lanes { IsLaneCount lanes }
    requires queue { IsQueueBound queue }
{
    let setup = setup_of(lanes, queue)?;
    let sites = stations_in_one_place(alloc, lanes)?;
    let mut host = host_of(alloc, capture, STEP, &[], &[])?;
    let ended = replay_once(rt, alloc, &sites, &setup, &mut host, gate)?;
    assert_eq!(rt; ended.fault, None);
    Ok(host)
}

/// How many packets of a station a journal has: not where they are in another order than that of
/// their numbers.
fn packets_in(journal: &str, code: &str) -> Option<u32> {
    let mut count = 0;
    for line in journal.lines() {
        let mut fields = line.split(' ').skip(3);
        if fields.next()? == code {
            if fields.nth(1)?.parse::<u32>() != Ok(count) {
                return None;
            }
            count = count.checked_add(1)?;
        }
    }
    Some(count)
}

/// So many packets of each of two stations, in order, are in the journal, and one of these outputs
/// was written.
fn expect_of_each(
    rt: &impl Abort,
    host: &MemHost,
    count: u32,
    outputs: &[&str],
) -> Result<(), Fail> {
    let journal = str::from_utf8(host.held(To::Journal))?;
    assert_eq!(rt; packets_in(journal, "1"), Some(count));
    assert_eq!(rt; packets_in(journal, "2"), Some(count));
    let output = str::from_utf8(host.held(To::Out))?;
    assert!(rt; outputs.iter().any(|text| *text == output), "{output}");
    Ok(())
}

#[test]
fn mark_between_packets_of_two_stations(rt: HostRuntime) -> Result<(), Fail> {
    let alloc = rt.alloc();
    let host = replayed(&rt, alloc, mark_between(alloc, 2)?, 2, 16, &OpenGate)?;
    expect_of_each(&rt, &host, 2, &MARK_BETWEEN_TWO)?;
    Ok(())
}

#[test]
fn two_lanes_over_a_queue_of_one(rt: HostRuntime) -> Result<(), Fail> {
    let alloc = rt.alloc();
    let host = replayed(&rt, alloc, fifty_of_each(alloc)?, 2, 1, &OpenGate)?;
    expect_of_each(&rt, &host, 50, &[FIFTY_OF_EACH])?;
    Ok(())
}

#[test]
fn lane_and_reading_must_meet(rt: HostRuntime) -> Result<(), Fail> {
    let alloc = rt.alloc();
    let gate = Meeting::new();
    replayed(&rt, alloc, three_segments(alloc, 2)?, 2, 16, &gate)?;
    assert!(rt; gate.met());
    Ok(())
}

#[test]
fn published_within_the_round(rt: HostRuntime) -> Result<(), Fail> {
    let alloc = rt.alloc();
    let gate = Within::new();
    let host = replayed(&rt, alloc, two_behind_a_mark(alloc)?, 1, 16, &gate)?;
    assert!(rt; gate.met());
    let output = str::from_utf8(host.held(To::Out))?;
    assert!(rt;
        TWO_BEHIND_A_MARK.iter().any(|text| *text == output),
        "{output}"
    );
    Ok(())
}

#[test]
fn gate_is_told_lanes_and_sessions_by_number(rt: HostRuntime) -> Result<(), Fail> {
    let alloc = rt.alloc();
    let setup = setup_of(2, 16)?;
    let sites = sites_of(alloc, 2, 0, &[("t1", "a", 0), ("t2", "b", 0)])?;
    let mut host = host_of(alloc, three_segments(alloc, 2)?, STEP, &[], &[])?;
    let gate = Numbers::new();
    let ended = replay_once(&rt, alloc, &sites, &setup, &mut host, &gate)?;
    assert_eq!(rt; ended.fault, None);
    // Three packets of each lane, and three readings of each session.
    assert_eq!(rt; gate.calls(), (3_000_003, 3_000_003));
    Ok(())
}
