//! The pieces of a replay, and the calls that fail.

use crate::captures::four_segments;
use crate::noting::NotingHost;
use crate::replaying::{replay_once, stations_in_one_place};
use plum_base::NoMemory;
use plum_replay::{OpenGate, ReplayFault};
use plum_trials_given::{host_of, setup_of};
use std::alloc::Global;
use std::process::Abort;
use std::sync::Wait;
use std::test::Fail;
use std::thread::Threads;

/// The calls of a replay that ends well. The first piece is empty, and comes before anything is
/// read. The capture lies in one block, and its end is read with the last segment. Each of the
/// other pieces is whole lines: for the journal those of a segment, and no piece for a segment
/// without packets; behind them the section of the mark before it; at last a section with tail and
/// totals. A `?` is a front that may be one of two.
const CALLS: &str = "> journal
> read
> journal
E 1 1 1 0 0 F -
E 2 1 1 0 1 C -
> journal
E 3 2 1 0 2 C -
> out
M 1 2 2 0 0
R 1 a ?
P 1 t1 - -
> out
M 2 1 1 0 0
R 2 a 3
P 2 t1 - -
> read
> journal
E 4 4 1 0 3 C -
> out
M 3 0 0 0 0
R 3 a ?
P 3 t1 - -
> out
M 4 1 1 0 0
R 4 a 4
P 4 t1 - -
T 0
Z 4 4 4 0 0
";

/// Its writes.
const WRITES: u32 = 8;

/// Whether these are calls of that replay, from the first on.
fn begins_calls(notes: &[u8]) -> bool {
    notes.len() <= CALLS.len()
        && notes
            .iter()
            .zip(CALLS.as_bytes())
            .all(|(note, call)| note == call || *call == b'?')
}

/// A host with that capture, which moves whole pieces. The read and the write of these numbers
/// fail, each counted from 1: none of number 0.
fn failing_at(alloc: Global, read: u32, write: u32) -> Result<NotingHost, NoMemory> {
    let capture = four_segments(alloc)?;
    let host = host_of(alloc, capture, 65_536, &[read], &[write])?;
    NotingHost::new(alloc, host)
}

/// Replays the capture, and tells the fault that ended it.
fn fault_over<R: Threads + Wait + Abort + Sync>(
    rt: &R,
    alloc: Global,
    host: &mut NotingHost,
) -> Result<Option<ReplayFault>, Fail> {
    let setup = setup_of(1, 16)?;
    let sites = stations_in_one_place(alloc, 1)?;
    Ok(replay_once(rt, alloc, &sites, &setup, host, &OpenGate)?.fault)
}

/// No call that fails is reached: the replay ends well, with all its calls. Tells how many reads
/// there were.
fn expect_all_calls<R: Threads + Wait + Abort + Sync>(
    rt: &R,
    alloc: Global,
    failing_read: u32,
    failing_write: u32,
) -> Result<u32, Fail> {
    let mut host = failing_at(alloc, failing_read, failing_write)?;
    assert_eq!(rt; fault_over(rt, alloc, &mut host)?, None);
    assert_eq!(rt; host.notes().len(), CALLS.len());
    assert!(rt; begins_calls(host.notes()), "other calls");
    Ok(host.reads())
}

/// This write fails: the pieces before it were written, and nothing is called after it.
fn expect_write_fault<R: Threads + Wait + Abort + Sync>(
    rt: &R,
    alloc: Global,
    write: u32,
) -> Result<(), Fail> {
    let mut host = failing_at(alloc, 0, write)?;
    assert_eq!(rt; fault_over(rt, alloc, &mut host)?, Some(ReplayFault::Write));
    assert_eq!(rt; host.writes(), write);
    assert!(rt; begins_calls(host.notes()), "at {write}");
    Ok(())
}

/// This read fails: the pieces before it were written, and nothing is called after it.
fn expect_read_fault<R: Threads + Wait + Abort + Sync>(
    rt: &R,
    alloc: Global,
    read: u32,
) -> Result<(), Fail> {
    let mut host = failing_at(alloc, read, 0)?;
    assert_eq!(rt; fault_over(rt, alloc, &mut host)?, Some(ReplayFault::Read));
    assert_eq!(rt; host.reads(), read);
    assert!(rt; begins_calls(host.notes()), "at {read}");
    assert!(rt; host.notes().ends_with(b"> read\n"), "at {read}");
    Ok(())
}

#[test]
fn order_of_calls(rt: HostRuntime) -> Result<(), Fail> {
    expect_all_calls(&rt, rt.alloc(), 0, 0)?;
    Ok(())
}

#[test]
fn failing_writes(rt: HostRuntime) -> Result<(), Fail> {
    for write in 1..=WRITES {
        expect_write_fault(&rt, rt.alloc(), write)?;
    }
    expect_all_calls(&rt, rt.alloc(), 0, WRITES + 1)?;
    Ok(())
}

#[test]
fn failing_reads(rt: HostRuntime) -> Result<(), Fail> {
    let reads = expect_all_calls(&rt, rt.alloc(), 0, 0)?;
    for read in 1..=reads {
        expect_read_fault(&rt, rt.alloc(), read)?;
    }
    expect_all_calls(&rt, rt.alloc(), reads.saturating_add(1), 0)?;
    Ok(())
}
