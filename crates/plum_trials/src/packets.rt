//! The bytes of a packet, with ample memory.

use plum_packet::{decode, encode};
use plum_trials_given::{packet_of, sites_of};
use std::test::Fail;

/// A packet of one sample, of a station of code 1.
#[test]
fn packet_bytes(rt: HostRuntime) -> Result<(), Fail> {
    let alloc = rt.alloc();
    let sites = sites_of(alloc, 1, 0, &[])?;
    let packet = packet_of(alloc, 0, 0, 1, 10)?;
    let bytes = encode(alloc, &packet, &sites)?;
    let header = [0x50, 0x4c, 1, 0, 0, 1, 0, 0, 0, 0, 0, 0, 0, 1];
    let sample = [0, 0, 0, 10, 0, 0, 0, 0, 0, 0, 0, 0];
    let (front, rest) = bytes.as_slice().split_at_checked(14).ok_or("a header")?;
    assert!(rt; front == header.as_slice());
    assert!(rt; rest == sample.as_slice());
    assert!(rt; decode(alloc, bytes.as_slice(), &sites).is_ok());
    Ok(())
}
