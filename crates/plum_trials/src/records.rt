//! A reader of records over a host in memory.

use plum_base::{Bytes, NoMemory};
use plum_host::{Host, MemHost};
use plum_packet::{Body, Records, RecordsFault};
use plum_trials_given::files_of;
use std::alloc::Global;
use std::process::Abort;
use std::test::Fail;

/// The records of four marks.
pub fn four_marks(alloc: Global) -> Result<Bytes, NoMemory> {
    let mut capture = Bytes::new(alloc)?;
    for _ in 0..4 {
        capture.extend(&[0, 2, b'M', b'K'])?;
    }
    Ok(capture)
}

/// The reader gives three records, and then answers its limit for good.
fn expect_three<H: Host>(rt: &impl Abort, records: &mut Records, host: &mut H) {
    for number in 1..4 {
        assert!(rt; records.next(host) == Ok(Some(Body { number, mark: true })));
    }
    for _ in 0..2 {
        assert!(rt; records.next(host) == Err(RecordsFault::Limit));
    }
}

/// A fourth mark stands behind the three records that a reader of three gives.
#[test]
fn file_and_record_limits(rt: HostRuntime) -> Result<(), Fail> {
    let alloc = rt.alloc();
    let mut host = MemHost::sound(alloc, files_of(alloc, four_marks(alloc)?)?)?;
    let mut records = Records::new(alloc, 3)?;
    expect_three(&rt, &mut records, &mut host);
    Ok(())
}
