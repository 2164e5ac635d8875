//! Worked lists of events.

ghost use Rattle.std.specs.Prelude.{◌≤◌};
ghost use Rattle.plum_base.specs.declared.wave.TheConstants.Wave.{MAX};

use plum_base::{AreaNo, LaneNo, NoMemory, Setup, Sites};
use plum_core::{Event, play};
use plum_trials_given::{packet_of, setup_of, sites_of};
use std::alloc::Global;
use std::process::Abort;
use std::test::Fail;

/// A station takes a packet of this number, with so many equal samples along x.
fn take(alloc: Global, station: u16, number: u32, count: u16, x: i32) -> Result<Event, NoMemory>
    requires { count ≤ MAX }
{
    Ok(Event::Take(packet_of(alloc, station, number, count, x)?))
}

/// Plays the events, and compares each reply with its text.
fn expect_replies(
    rt: &impl Abort,
    alloc: Global,
    sites: &Sites,
    setup: &Setup,
    events: Vec<Event>,
    wanted: &[&str],
) -> Result<(), Fail> {
    let mut existing = Vec::new(alloc);
    for event in events {
        assert!(rt; event.names_what_exists(sites, setup));
        existing.push(event)?;
    }
    assert!(rt; existing.len() <= 100);
    let replies = play(alloc, sites, setup, existing)?;
    assert_eq!(rt; replies.len(), wanted.len());
    for (reply, text) in replies.iter().zip(wanted) {
        assert_eq!(rt; format!(in alloc; "{reply:?}")?.as_str(), *text);
    }
    Ok(())
}

#[test]
fn machine_with_a_queue_of_one(rt: HostRuntime) -> Result<(), Fail> {
    let alloc = rt.alloc();
    let setup = setup_of(1, 1)?;
    let sites = sites_of(alloc, 1, 0, &[("t1", "a", 0)])?;
    let events = vec![in alloc;
        take(alloc, 0, 0, 30, 10)?,
        Event::Offer(LaneNo(0)),
        take(alloc, 0, 1, 1, 0)?,
        Event::Offer(LaneNo(0)),
        Event::Read(AreaNo(0)),
        Event::Pop,
        Event::Append,
        Event::Read(AreaNo(0)),
        Event::Publish,
        Event::Read(AreaNo(0)),
        Event::Pop,
    ]?;
    let wanted = [
        "Took(Ready)",
        "Offered(Sent)",
        "Took(Ready)",
        "Offered(Busy)",
        "Read(Reading { front: 0, answers: Answers { items: [None] } })",
        "Popped(Key { boot: 0, number: 0 })",
        "Appended",
        "Read(Reading { front: 0, answers: Answers { items: [None] } })",
        "Published(1)",
        "Read(Reading { front: 1, answers: Answers { items: [Some(Tenths(21))] } })",
        "Empty",
    ];
    expect_replies(&rt, alloc, &sites, &setup, events, &wanted)
}

/// Two lanes, two stations 40 km apart, and two areas, of which `a` has a target beside one station
/// and one between. An entry waits while the queue is full.
#[test]
fn lanes_and_areas(rt: HostRuntime) -> Result<(), Fail> {
    let alloc = rt.alloc();
    let setup = setup_of(2, 1)?;
    let targets = [("t1", "a", 0), ("t2", "b", 40_000), ("t3", "a", 20_000)];
    let sites = sites_of(alloc, 2, 40_000, &targets)?;
    let events = vec![in alloc;
        Event::Offer(LaneNo(1)),
        take(alloc, 1, 7, 30, 20)?,
        take(alloc, 1, 8, 30, 20)?,
        take(alloc, 0, 0, 30, 10)?,
        Event::Offer(LaneNo(1)),
        Event::Offer(LaneNo(0)),
        take(alloc, 1, 6, 30, 20)?,
        Event::Pop,
        Event::Offer(LaneNo(0)),
        Event::Append,
        Event::Append,
        Event::Publish,
        Event::Learn(AreaNo(0), 2),
        Event::Learn(AreaNo(0), 1),
        Event::Learn(AreaNo(0), 0),
        Event::Read(AreaNo(0)),
        Event::Read(AreaNo(1)),
        Event::Pop,
        Event::Append,
        Event::Read(AreaNo(0)),
        Event::Publish,
        Event::Read(AreaNo(0)),
    ]?;
    let wanted = [
        "Idle",
        "Took(Ready)",
        "Held",
        "Took(Ready)",
        "Offered(Sent)",
        "Offered(Busy)",
        "Took(Repeat { last: Key { boot: 0, number: 7 } })",
        "Popped(Key { boot: 0, number: 7 })",
        "Offered(Sent)",
        "Appended",
        "Nothing",
        "Published(1)",
        "Nothing",
        "Learned(1)",
        "Learned(1)",
        "Read(Reading { front: 1, answers: Answers { items: [None, Some(Tenths(22))] } })",
        "Read(Reading { front: 1, answers: Answers { items: [Some(Tenths(22))] } })",
        "Popped(Key { boot: 0, number: 0 })",
        "Appended",
        "Read(Reading { front: 1, answers: Answers { items: [None, Some(Tenths(22))] } })",
        "Published(2)",
        "Read(Reading { front: 2, answers: Answers { items: [Some(Tenths(21)), \
            Some(Tenths(22))] } })",
    ];
    expect_replies(&rt, alloc, &sites, &setup, events, &wanted)
}
