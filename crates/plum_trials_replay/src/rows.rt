//! Worked rows over hosts that move 1, 7 and 65,536 bytes a call.

use crate::captures::{every_fault, mark_between, tail_of_twelve, thirty_samples};
use crate::lines::{EVERY_FAULT, MARK_BETWEEN, TAIL_OF_TWELVE, THIRTY_SAMPLES, Texts};
use crate::replaying::{Seen, replay_once, stations_in_one_place};
use plum_base::{Bytes, Tenths};
use plum_host::{MemHost, To};
use plum_replay::OpenGate;
use plum_trials_given::{host_of, setup_of};
use std::alloc::Global;
use std::process::Abort;
use std::sync::Wait;
use std::test::Fail;
use std::thread::Threads;

/// The host holds these texts.
fn expect_texts(rt: &impl Abort, host: &MemHost, texts: &Texts) -> Result<(), Fail> {
    assert_eq!(rt; str::from_utf8(host.held(To::Journal))?, texts.journal);
    let output = str::from_utf8(host.held(To::Out))?;
    assert!(rt;
        texts.outputs.iter().any(|text| *text == output),
        "{output}"
    );
    Ok(())
}

/// Replays a capture of one station, with one lane, and tells what is read last.
fn expect_replay<R: Threads + Wait + Abort + Sync>(
    rt: &R,
    alloc: Global,
    capture: Bytes,
    step: u32,
    texts: &Texts,
) -> Result<Option<Seen>, Fail> {
    assert!(rt; step > 0);
    let setup = setup_of(1, 16)?;
    let sites = stations_in_one_place(alloc, 1)?;
    let mut host = host_of(alloc, capture, step, &[], &[])?;
    let ended = replay_once(rt, alloc, &sites, &setup, &mut host, &OpenGate)?;
    assert_eq!(rt; ended.fault, None);
    expect_texts(rt, &host, texts)?;
    Ok(ended.last)
}

#[test]
fn thirty_samples_in_two_packets(rt: HostRuntime) -> Result<(), Fail> {
    let alloc = rt.alloc();
    for step in [1, 7, 65_536] {
        let last = expect_replay(&rt, alloc, thirty_samples(alloc)?, step, &THIRTY_SAMPLES)?;
        assert_eq!(rt; last, Some((2, Some(Tenths(21)))));
    }
    Ok(())
}

#[test]
fn every_packet_fault(rt: HostRuntime) -> Result<(), Fail> {
    let alloc = rt.alloc();
    for step in [1, 7, 65_536] {
        expect_replay(&rt, alloc, every_fault(alloc)?, step, &EVERY_FAULT)?;
    }
    Ok(())
}

#[test]
fn tail_of_twelve_bytes(rt: HostRuntime) -> Result<(), Fail> {
    let alloc = rt.alloc();
    for step in [1, 7, 65_536] {
        expect_replay(&rt, alloc, tail_of_twelve(alloc)?, step, &TAIL_OF_TWELVE)?;
    }
    Ok(())
}

#[test]
fn mark_between_two_packets(rt: HostRuntime) -> Result<(), Fail> {
    let alloc = rt.alloc();
    for step in [1, 7, 65_536] {
        expect_replay(&rt, alloc, mark_between(alloc, 1)?, step, &MARK_BETWEEN)?;
    }
    Ok(())
}
