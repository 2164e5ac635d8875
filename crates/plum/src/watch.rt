//! A station that is watched.

ghost use Rattle.std.specs.Prelude.{◌≡◌, ◌≢◌, ◌<◌, ◌≤◌, ◌+◌, ◌-◌, ◌^◌, ℕ, List, [], Some, IfOk};
ghost use Rattle.std.specs.Prelude.{MatchBool};
ghost use Rattle.plum_base.specs.declared.entry.Entry.{Entry};
ghost use Rattle.plum_base.specs.declared.numbers.StationNo.{StationNo};
ghost use Rattle.plum_base.specs.declared.packet.Packet.{Packet};
ghost use Rattle.plum_base.specs.declared.setup.Setup.{Setup};
ghost use Rattle.plum_base.specs.Lane.{lane_of};
ghost use Rattle.plum.specs.Plain.{value_line};
ghost use Rattle.plum.specs.Watched.{HasWatched, WatchesOneMore, packets_in};

use plum_base::{Entry, LaneNo, NoMemory, Packet, Setup, StationNo, lane_of};
use plum_core::{Station, Taken, giving_keeps_backlog, sending_keeps_validity};
use plum_text::PlainLine;
use std::alloc::Global;

/// A station at work, and how many of its packets were kept and how many repeats. Where no station
/// is watched no packet is taken.
#[derive(Drop)]
pub struct Watch {
    number: Option<StationNo>,
    lane: LaneNo,
    station: Station,
    kept: u32,
    repeats: u32,
}

/// The line of a kept packet.
fn value_line(entry: &Entry) -> PlainLine
    ensures { result ≡ value_line entry.now }
{
    PlainLine::Value {
        key: entry.key,
        fresh: entry.fresh,
        value: entry.value,
    }
}

/// The lane of the station, where there is one.
fn lane_where(lanes: u16, number: Option<StationNo>) -> LaneNo
    requires { 1 ≤ lanes }
    ensures { (n : StationNo) → number ≡ Some n → result.0 ≡ lane_of lanes n.0 }
{
    match number {
        Some(station) => lane_of(lanes, station),
        None => LaneNo(0),
    }
}

/// Whether that is the station of this number.
fn is_of(number: Option<StationNo>, station: StationNo) -> bool
    ensures { MatchBool result (number ≡ Some station) (number ≢ Some station) }
{
    match number {
        Some(n) => n.0 == station.0,
        None => false,
    }
}

impl Watch {
    /// A watch of the station of this number to which nothing was given. It takes all its memory
    /// here.
    pub fn new(alloc: Global, setup: &Setup, number: Option<StationNo>) -> Result<Watch, NoMemory>
        ensures start { (stations : ℕ)
            → IfOk result (λ watch. HasWatched watch setup.now stations [] []) }
        ensures number { IfOk result (λ watch. watch.number ≡ number) }
        ensures none { IfOk result (λ watch. packets_in watch ≡ 0) }
    {
        Ok(Watch {
            number,
            lane: lane_where(setup.lanes, number),
            station: Station::new(alloc, setup)?,
            kept: 0,
            repeats: 0,
        })
    }

    /// Takes the next packet of the capture. The line of one that is of the station and kept.
    pub fn take(&mut self, packet: Packet) -> Option<PlainLine>
        requires room { packets_in self.old < 2 ^ 32 - 1 }
        ensures takes { (setup : Setup) (stations : ℕ) (packets : List Packet)
            (history : List Entry) → packet.station.0 < stations
            → HasWatched self.old setup stations packets history
            → WatchesOneMore self.new setup stations packets history packet result }
        ensures number { self.new.number ≡ self.old.number }
        ensures count { packets_in self.new ≤ packets_in self.old + 1 }
    {
        if is_of(self.number, packet.station) {
            self.take_own(packet)
        } else {
            None
        }
    }

    /// Takes the next packet of the station.
    fn take_own(&mut self, packet: Packet) -> Option<PlainLine>
        requires own { self.old.number ≡ Some packet.station }
        requires room { packets_in self.old < 2 ^ 32 - 1 }
        ensures takes { (setup : Setup) (stations : ℕ) (packets : List Packet)
            (history : List Entry) → packet.station.0 < stations
            → HasWatched self.old setup stations packets history
            → WatchesOneMore self.new setup stations packets history packet result }
        ensures number { self.new.number ≡ self.old.number }
        ensures count { packets_in self.new ≤ packets_in self.old + 1 }
    {
        // For the contract: what a kept packet does to a history.
        giving_keeps_backlog();
        sending_keeps_validity();
        match self.station.take(self.lane, packet) {
            Taken::Kept(entry) => {
                self.kept += 1;
                Some(value_line(&entry))
            }
            Taken::Repeat { .. } => {
                self.repeats += 1;
                None
            }
        }
    }

    /// The line of what was counted.
    pub fn counts_line(&self) -> PlainLine
        ensures { result ≡ PlainLine.Counts self.now.kept self.now.repeats }
    {
        PlainLine::Counts {
            kept: self.kept,
            repeats: self.repeats,
        }
    }
}
