//! Worked rows, call by call.

ghost use Rattle.plum_trials_lanes.specs.AtWork.{IsOpen};

use crate::handing::Opened;
use plum_base::{Key, Offered, Tenths, Took};
use plum_trials_given::packet_of;
use std::alloc::Global;
use std::sync::Wait;
use std::test::Fail;

#[test]
fn repeated_packet(rt: HostRuntime) -> Result<(), Fail> {
    let mut opened = Opened::new(rt.alloc(), 1, 1, 16)?;
    let took = opened.take(0, packet_of(rt.alloc(), 0, 0, 30, 10)?)?;
    assert_eq!(rt; took, Took::Ready);
    assert_eq!(rt; opened.offer(&rt, 0)?, Offered::Sent);
    let took = opened.take(0, packet_of(rt.alloc(), 0, 0, 30, 10)?)?;
    let last = Key { boot: 0, number: 0 };
    assert_eq!(rt; took, Took::Repeat { last });
    assert!(rt; !opened.lanes[0].waiting());
    assert_eq!(rt; opened.lanes[0].kept(), 1);
    assert_eq!(rt; opened.lanes[0].repeats(), 1);
    Ok(())
}

#[test]
fn lanes_with_a_queue_of_one(rt: HostRuntime) -> Result<(), Fail> {
    let mut opened = Opened::new(rt.alloc(), 1, 1, 1)?;
    let took = opened.take(0, packet_of(rt.alloc(), 0, 0, 30, 10)?)?;
    assert_eq!(rt; took, Took::Ready);
    assert_eq!(rt; opened.offer(&rt, 0)?, Offered::Sent);
    let took = opened.take(0, packet_of(rt.alloc(), 0, 1, 1, 0)?)?;
    assert_eq!(rt; took, Took::Ready);
    assert_eq!(rt; opened.offer(&rt, 0)?, Offered::Busy);
    assert!(rt; opened.lanes[0].waiting());
    let entry = opened.next(&rt).ok_or("the first entry")?;
    assert_eq!(rt; entry.key.number, 0);
    assert_eq!(rt; opened.offer(&rt, 0)?, Offered::Sent);
    opened.close()?;
    let entry = opened.next(&rt).ok_or("the second entry")?;
    assert_eq!(rt; entry.key.number, 1);
    assert_eq!(rt; entry.value, Some(Tenths(21)));
    assert!(rt; opened.next(&rt).is_none());
    Ok(())
}

/// Gives a lane the packet of its first station, and offers its entry.
fn send(
    opened: &mut Opened,
    rt: &impl Wait,
    alloc: Global,
    lane: u16,
    n: u32,
) -> Result<Offered, Fail>
    requires { IsOpen opened.old.stations opened.old.lanes.items opened.old.gather }
    ensures { IsOpen opened.new.stations opened.new.lanes.items opened.new.gather }
{
    opened.take(lane, packet_of(alloc, lane, n, 1, 0)?)?;
    opened.offer(rt, lane)
}

/// Whether the next entry is of this station and has this number.
fn comes(opened: &mut Opened, rt: &impl Wait, station: u16, n: u32) -> bool
    requires { IsOpen opened.old.stations opened.old.lanes.items opened.old.gather }
    ensures { IsOpen opened.new.stations opened.new.lanes.items opened.new.gather }
{
    match opened.next(rt) {
        Some(entry) => entry.station.0 == station && entry.key.number == n,
        None => false,
    }
}

#[test]
fn two_rounds_of_three_lanes(rt: HostRuntime) -> Result<(), Fail> {
    let alloc = rt.alloc();
    let mut opened = Opened::new(alloc, 3, 3, 2)?;
    for n in 0..2 {
        assert_eq!(rt; send(&mut opened, &rt, alloc, 2, n)?, Offered::Sent);
        assert_eq!(rt; send(&mut opened, &rt, alloc, 0, n)?, Offered::Sent);
        assert_eq!(rt; send(&mut opened, &rt, alloc, 1, n)?, Offered::Busy);
        assert!(rt; comes(&mut opened, &rt, 2, n));
        assert_eq!(rt; opened.offer(&rt, 1)?, Offered::Sent);
        opened.close()?;
        assert!(rt; comes(&mut opened, &rt, 0, n));
        assert!(rt; comes(&mut opened, &rt, 1, n));
        assert!(rt; opened.next(&rt).is_none());
    }
    Ok(())
}
