//! Lanes and their gatherer in one value, and calls on it that test what each call asks.

ghost use Rattle.std.specs.Prelude.{◌≤◌, IfOk};
ghost use Rattle.plum_base.specs.Setup.{IsLaneCount, IsQueueBound};
ghost use Rattle.plum_trials_lanes.specs.AtWork.{IsOpen, IsSomeLane, StaysAtWork};

use plum_base::{Entry, LANES, Offered, Packet, Took};
use plum_lanes::{Gather, Lane, close_round, open};
use plum_trials_given::{setup_of, sites_of};
use std::alloc::Global;
use std::sync::Wait;
use std::test::Fail;

/// The most lanes of a setup.
pub const MOST_LANES: usize = LANES.high as usize;

/// The lanes of a queue of so many stations, and its gatherer.
#[derive(Drop)]
pub struct Opened {
    pub stations: u16,
    pub lanes: Vec<Lane>,
    pub gather: Gather,
}

/// Far above what a trial takes, and below what a lane takes.
const MOST: u32 = 1_000_000;

/// Gives a packet to its lane, where nothing waits and the packet is for it.
pub fn take(lane: &mut Lane, packet: Packet, number: u16, stations: u16, lanes: u16) -> Option<Took>
    requires some { 1 ≤ lanes }
    requires lane { IsSomeLane stations lanes number lane.old }
    ensures { StaysAtWork stations lanes number lane.old lane.new }
{
    let station = packet.station.0;
    if lane.waiting() || lane.kept() > MOST || lane.repeats() > MOST {
        return None;
    }
    if station >= stations || station % lanes != number {
        return None;
    }
    Some(lane.take(packet))
}

/// Offers what waits, where something does.
pub fn offer<R: Wait>(
    rt: &R,
    lane: &mut Lane,
    number: u16,
    stations: u16,
    lanes: u16,
) -> Option<Offered>
    requires lane { IsSomeLane stations lanes number lane.old }
    ensures { StaysAtWork stations lanes number lane.old lane.new }
{
    if !lane.waiting() {
        return None;
    }
    Some(lane.offer(rt))
}

impl Opened {
    /// So many stations, in so many lanes, with a queue of so many entries.
    pub fn new(alloc: Global, stations: u16, lanes: u16, queue: u32) -> Result<Opened, Fail>
        requires lanes { IsLaneCount lanes }
        requires queue { IsQueueBound queue }
        ensures { IfOk result (λ o. IsOpen o.stations o.lanes.items o.gather) }
    {
        let setup = setup_of(lanes, queue)?;
        let sites = sites_of(alloc, stations, 0, &[("t1", "a", 0)])?;
        let (lanes, gather) = open(alloc, &sites, &setup)?;
        Ok(Opened {
            stations,
            lanes,
            gather,
        })
    }

    /// Gives a packet to the lane of this number.
    pub fn take(&mut self, number: u16, packet: Packet) -> Result<Took, Fail>
        requires { IsOpen self.old.stations self.old.lanes.items self.old.gather }
        ensures { IsOpen self.new.stations self.new.lanes.items self.new.gather }
    {
        let lanes = self.lanes.as_slice().len();
        if lanes > MOST_LANES || number as usize >= lanes {
            return Err("no such lane")?;
        }
        let lane = &mut self.lanes[number as usize];
        let took = take(lane, packet, number, self.stations, lanes as u16);
        Ok(took.ok_or("a packet that can be taken")?)
    }

    /// Offers what waits in the lane of this number.
    pub fn offer<R: Wait>(&mut self, rt: &R, number: u16) -> Result<Offered, Fail>
        requires { IsOpen self.old.stations self.old.lanes.items self.old.gather }
        ensures { IsOpen self.new.stations self.new.lanes.items self.new.gather }
    {
        let lanes = self.lanes.as_slice().len();
        if lanes > MOST_LANES || number as usize >= lanes {
            return Err("no such lane")?;
        }
        let lane = &mut self.lanes[number as usize];
        let offered = offer(rt, lane, number, self.stations, lanes as u16);
        Ok(offered.ok_or("an entry that waits")?)
    }

    /// The next entry.
    pub fn next<R: Wait>(&mut self, rt: &R) -> Option<Entry>
        requires { IsOpen self.old.stations self.old.lanes.items self.old.gather }
        ensures { IsOpen self.new.stations self.new.lanes.items self.new.gather }
    {
        self.gather.next(rt)
    }

    /// Closes the round.
    pub fn close(&mut self) -> Result<(), Fail>
        requires { IsOpen self.old.stations self.old.lanes.items self.old.gather }
        ensures { IsOpen self.new.stations self.new.lanes.items self.new.gather }
    {
        Ok(close_round(self.lanes.as_mut_slice(), &mut self.gather)?)
    }
}
