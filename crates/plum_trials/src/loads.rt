//! Inputs loaded over a host in memory whose second read fails.

use crate::records::four_marks;
use plum_host::{Host, In, LoadFault, load};
use plum_trials_given::host_of;
use std::alloc::Global;
use std::process::Abort;
use std::test::Fail;

/// The read that fails ends the first call, and the second one gives what is left.
fn expect_rest<H: Host>(rt: &impl Abort, alloc: Global, host: &mut H) {
    assert!(rt; matches!(load(alloc, host, In::Capture, 16), Err(LoadFault::Read)));
    match load(alloc, host, In::Capture, 16) {
        Ok(bytes) => assert!(rt; bytes.as_slice() == b"\0\x02MK\0\x02MK\0\x02MK".as_slice()),
        Err(_) => assert!(rt; false),
    }
}

/// Four marks are loaded, four bytes a read at most.
#[test]
fn second_read_fails(rt: HostRuntime) -> Result<(), Fail> {
    let alloc = rt.alloc();
    let mut host = host_of(alloc, four_marks(alloc)?, 4, &[2], &[])?;
    expect_rest(&rt, alloc, &mut host);
    Ok(())
}
