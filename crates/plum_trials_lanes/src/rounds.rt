//! Rounds: each lane sends its packets while the gatherer takes, on real threads or by turns.

ghost use Rattle.std.specs.Prelude.{◌^◌, ◌<◌, ◌≤◌, length};
ghost use Rattle.plum_lanes.specs.Gathering.{IsGather};
ghost use Rattle.plum_lanes.specs.Opening.{Opening};
ghost use Rattle.plum_trials_lanes.specs.AtWork.{IsOpen, IsSomeLane, StaysAtWork, StaysGather};
ghost use Rattle.plum_trials_lanes.specs.AtWork.{AreSomeLanes, StayAtWork};
ghost use Rattle.plum_trials_lanes.specs.declared.handing.TheConstants.{MOST_LANES};

use crate::handing::{MOST_LANES, Opened, offer, take};
use plum_base::{Entry, Offered};
use plum_lanes::{Gather, Lane};
use plum_trials_given::packet_of;
use std::alloc::Global;
use std::sync::Wait;
use std::sync::atomic::{AtomicU64, Ordering};
use std::test::Fail;
use std::thread;
use std::thread::{Threads, join_mut};

/// What is gathered of each station: how many entries so far, each with the next number, and how
/// many came out of order.
#[derive(Drop)]
pub struct Seen {
    pub next: [u32; 8],
    pub wrong: u32,
}

impl Seen {
    pub fn new() -> Seen {
        Seen {
            next: [0; 8],
            wrong: 0,
        }
    }

    /// The next entry.
    pub fn add(&mut self, entry: &Entry) {
        let station = entry.station.0 as usize;
        if station < 8 && self.next[station] == entry.key.number {
            self.next[station] = entry.key.number.wrapping_add(1);
        } else {
            self.wrong = self.wrong.saturating_add(1);
        }
    }

    /// Whether each of so many stations sent the packets up to this number, in order and each once.
    pub fn is_whole(&self, stations: u16, end: u32) -> bool {
        let mut whole = self.wrong == 0;
        for (i, next) in self.next.iter().enumerate() {
            if *next != (if i < stations as usize { end } else { 0 }) {
                whole = false;
            }
        }
        whole
    }
}

/// The packets of a round: these numbers of each of so many stations, in so many lanes.
#[derive(Clone, Copy)]
pub struct Load {
    pub stations: u16,
    pub lanes: u16,
    pub first: u32,
    pub end: u32,
}

/// Offers what waits until nothing does.
fn send<R: Wait>(rt: &R, lane: &mut Lane, number: u16, stations: u16, lanes: u16)
    requires lane { IsSomeLane stations lanes number lane.old }
    ensures { StaysAtWork stations lanes number lane.old lane.new }
{
    for _ in rt.forever() {
        match offer(rt, lane, number, stations, lanes) {
            None => return,
            Some(Offered::Sent) => {}
            Some(Offered::Busy) => thread::yield_now(),
        }
    }
}

/// Gives a lane the packet of a station, and sends its entry, where the station is of the lane.
fn hand<R: Wait>(
    rt: &R,
    alloc: Global,
    lane: &mut Lane,
    number: u16,
    load: Load,
    packet: (u16, u32),
)
    requires some { 1 ≤ load.lanes }
    requires lane { IsSomeLane load.stations load.lanes number lane.old }
    ensures { StaysAtWork load.stations load.lanes number lane.old lane.new }
{
    if packet.0 % load.lanes == number {
        if let Ok(packet) = packet_of(alloc, packet.0, packet.1, 1, 10) {
            take(lane, packet, number, load.stations, load.lanes);
            send(rt, lane, number, load.stations, load.lanes);
        }
    }
}

/// A lane at work: all packets of its stations, by their numbers.
fn work<R: Wait>(rt: &R, alloc: Global, lane: &mut Lane, number: u16, load: Load)
    requires some { 1 ≤ load.lanes }
    requires lane { IsSomeLane load.stations load.lanes number lane.old }
    ensures { StaysAtWork load.stations load.lanes number lane.old lane.new }
{
    for n in load.first..load.end {
        for station in 0..load.stations {
            hand(rt, alloc, lane, number, load, (station, n));
        }
    }
}

/// Takes entries until so many lanes have ended and nothing is left.
fn feed<R: Wait>(rt: &R, gather: &mut Gather, seen: &mut Seen, ended: &AtomicU64, lanes: u64)
    requires { (opening : Opening) × IsGather opening gather.old }
    ensures { StaysGather gather.old gather.new }
{
    for _ in rt.forever() {
        let all = ended.load(Ordering::SeqCst) >= lanes;
        match gather.next(rt) {
            Some(entry) => seen.add(&entry),
            None if all => return,
            None => thread::yield_now(),
        }
    }
}

/// Each lane works on a thread of its own.
fn each<R: Threads + Wait + Sync>(
    rt: &R,
    alloc: Global,
    lanes: &mut [Lane],
    load: Load,
    ended: &AtomicU64,
)
    requires some { 1 ≤ load.lanes }
    requires few { length lanes.old ≤ MOST_LANES }
    requires lanes { AreSomeLanes load.stations load.lanes lanes.old }
    ensures { StayAtWork load.stations load.lanes lanes.old lanes.new }
{
    let count = lanes.len();
    if count > 0 {
        thread::for_each_mut(
            rt,
            lanes,
            count,
            &|i, lane|
                requires { (i < 2 ^ 16) × IsSomeLane load.stations load.lanes i lane.now }
                ensures { StaysAtWork load.stations load.lanes i lane.entry.now lane.exit.now }
            {
                work(rt, alloc, lane, i as u16, load);
                ended.fetch_add(1, Ordering::SeqCst);
            },
        );
    }
}

/// The lanes work while the gatherer takes beside them. It takes last where no thread can be made,
/// so that it finds all lanes ended.
fn side_by_side<R: Threads + Wait + Sync>(
    rt: &R,
    alloc: Global,
    lanes: &mut [Lane],
    gather: &mut Gather,
    seen: &mut Seen,
    load: Load,
)
    requires some { 1 ≤ load.lanes }
    requires few { length lanes.old ≤ MOST_LANES }
    requires lanes { AreSomeLanes load.stations load.lanes lanes.old }
    requires gather { (opening : Opening) × IsGather opening gather.old }
    ensures lanes { StayAtWork load.stations load.lanes lanes.old lanes.new }
    ensures gather { StaysGather gather.old gather.new }
{
    let ended = AtomicU64::new(0);
    let total = lanes.len() as u64;
    join_mut(
        rt,
        &mut ||
            requires { (opening : Opening) × IsGather opening gather.now }
            ensures { StaysGather gather.entry.now gather.exit.now }
        { feed(rt, gather, seen, &ended, total) },
        &mut ||
            requires { (1 ≤ load.lanes) × (length lanes.now ≤ MOST_LANES)
                × AreSomeLanes load.stations load.lanes lanes.now }
            ensures { StayAtWork load.stations load.lanes lanes.entry.now lanes.exit.now }
        { each(rt, alloc, lanes, load, &ended) },
    );
}

impl Opened {
    /// A round of the packets of all stations, from one number up to another, and its end.
    pub fn round<R: Threads + Wait + Sync>(
        &mut self,
        rt: &R,
        alloc: Global,
        seen: &mut Seen,
        first: u32,
        end: u32,
    ) -> Result<(), Fail>
        requires { IsOpen self.old.stations self.old.lanes.items self.old.gather }
        ensures { IsOpen self.new.stations self.new.lanes.items self.new.gather }
    {
        let count = self.lanes.as_slice().len();
        if count == 0 || count > MOST_LANES {
            return Err("lanes")?;
        }
        let load = Load {
            stations: self.stations,
            lanes: count as u16,
            first,
            end,
        };
        let lanes = self.lanes.as_mut_slice();
        side_by_side(rt, alloc, lanes, &mut self.gather, seen, load);
        self.close()
    }
}

#[test]
fn four_lanes_on_threads(rt: HostRuntime) -> Result<(), Fail> {
    for _ in 0..50 {
        let mut opened = Opened::new(rt.alloc(), 8, 4, 1)?;
        let mut seen = Seen::new();
        opened.round(&rt, rt.alloc(), &mut seen, 0, 2000)?;
        assert!(rt; opened.next(&rt).is_none());
        assert!(rt; seen.is_whole(8, 2000));
    }
    Ok(())
}

#[test]
fn two_rounds_on_threads(rt: HostRuntime) -> Result<(), Fail> {
    let mut opened = Opened::new(rt.alloc(), 6, 3, 2)?;
    let mut seen = Seen::new();
    opened.round(&rt, rt.alloc(), &mut seen, 0, 100)?;
    assert!(rt; seen.is_whole(6, 100));
    opened.round(&rt, rt.alloc(), &mut seen, 100, 250)?;
    assert!(rt; seen.is_whole(6, 250));
    assert!(rt; opened.next(&rt).is_none());
    Ok(())
}
