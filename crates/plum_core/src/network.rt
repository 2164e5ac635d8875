//! All stations of a centre at work.

ghost use Rattle.std.specs.Prelude.{◌≡◌, ℕ, ◌<◌, ◌≤◌, List, [], ◌∷◌, ◌++◌, length, IfOk};
ghost use Rattle.plum_base.specs.declared.entry.Entry.{Entry};
ghost use Rattle.plum_base.specs.declared.packet.Packet.{Packet};
ghost use Rattle.plum_base.specs.Lane.{lane_of};

use crate::station::{Station, Taken};
use plum_base::{LaneNo, NoMemory, Packet, Setup, StationNo, lane_of};
use plum_seq::kept_packets;
use std::alloc::Global;

/// The stations, by their numbers.
#[derive(Drop)]
pub struct Network {
    lanes: u16,
    stations: Vec<Station>,
    pub ghost some_lane: { 1 ≤ lanes },
}

impl Network {
    ghost use Rattle.plum_base.specs.declared.setup.Setup.{Setup};
    ghost use Rattle.plum_core.specs.Station.{StandFor, Gives, given_more};
    ghost use Rattle.plum_core.specs.Station.{lanes_of, size_of, HasTaken, with_taken};

    /// So many stations, to which nothing was given.
    pub fn new(alloc: Global, setup: &Setup, count: usize) -> Result<Network, NoMemory>
        ensures stand { IfOk result (λ network. StandFor network setup.now (λ _. [])) }
        ensures count { IfOk result (λ network. size_of network ≡ count) }
        ensures start { IfOk result (λ network. HasTaken network setup.now [] []) }
    {
        let mut stations = Vec::new(alloc);
        for _ in 0..count {
            stations.push(Station::new(alloc, setup)?)?;
        }
        Ok(Network {
            lanes: setup.lanes,
            stations,
        })
    }

    /// The lane of a station.
    pub fn lane_of(&self, station: StationNo) -> LaneNo
        ensures value { result.0 ≡ lane_of (lanes_of self.now) station.0 }
        ensures bound { result.0 < lanes_of self.now }
    {
        lane_of(self.lanes, station)
    }

    /// Gives a packet to its station.
    pub fn take(&mut self, packet: Packet) -> Taken
        requires listed { packet.station.0 < size_of self.old }
        ensures lanes { lanes_of self.new ≡ lanes_of self.old }
        ensures count { size_of self.new ≡ size_of self.old }
        // Over all packets that it took.
        ensures takes { (setup : Setup) (packets : List Packet) (history : List Entry)
            → HasTaken self.old setup packets history
            → HasTaken self.new setup (packets ++ packet ∷ []) (with_taken history result) }
        // Station by station, whatever was given to the others.
        ensures stand { (setup : Setup) (given : ℕ → List Packet) → StandFor self.old setup given
            → StandFor self.new setup (given_more given packet) }
        ensures gives { (setup : Setup) (given : ℕ → List Packet) → StandFor self.old setup given
            → Gives setup (given packet.station.0)
            (record { 0 = lane_of setup.lanes packet.station.0 }) packet result }
    {
        // For the contract: a history of the kept packets says of the keys what all packets say.
        kept_packets();
        let lane = self.lane_of(packet.station);
        self.stations[packet.station.0 as usize].take(lane, packet)
    }
}
