//! Hosts with a capture.

ghost use Rattle.std.specs.Prelude.{◌≤◌};

use plum_base::{Bytes, NoMemory};
use plum_host::{MemFiles, MemHost};
use std::alloc::Global;

/// This capture, and no other input.
pub fn files_of(alloc: Global, capture: Bytes) -> Result<MemFiles, NoMemory> {
    Ok(MemFiles {
        setup: Bytes::new(alloc)?,
        stations: Bytes::new(alloc)?,
        targets: Bytes::new(alloc)?,
        capture,
        journal: Bytes::new(alloc)?,
        output: Bytes::new(alloc)?,
    })
}

/// A host in memory with this capture, and no other input. It moves at most `step` bytes a call.
/// The reads and the writes of these numbers fail, each counted from 1.
pub fn host_of(
    alloc: Global,
    capture: Bytes,
    step: u32,
    bad_reads: &[u32],
    bad_writes: &[u32],
) -> Result<MemHost, NoMemory>
    requires { 1 ≤ step }
{
    let files = files_of(alloc, capture)?;
    let bad_reads = Vec::from_slice(alloc, bad_reads)?;
    let bad_writes = Vec::from_slice(alloc, bad_writes)?;
    MemHost::failing(alloc, files, step, bad_reads, bad_writes)
}
