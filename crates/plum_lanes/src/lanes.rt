//! A lane: its stations at work, and the entry that waits to be sent.

ghost use Rattle.std.specs.Prelude.{◌≡◌, ℕ, ◌+◌, ◌-◌, ◌^◌, ◌<◌, ◌↔◌, List, [], ◌∷◌, ◌++◌, None};
ghost use Rattle.std.specs.Prelude.{IsSome, IsTrue};
ghost use Rattle.plum_base.specs.declared.packet.Packet.{Packet};

use crate::rule::{Ring, Ticket};
use crate::steps::send;
use plum_base::{Entry, LaneNo, Offered, Packet, Took};
use plum_core::{Station, Taken, giving_keeps_backlog, sending_keeps_validity};
use std::alloc::Global;
use std::sync::{Arc, Wait};

/// A lane. Contracts see what it sent, and the packets that it took.
#[derive(Drop)]
pub struct Lane {
    pub(crate) ring: Arc<Ring, Global>,
    pub(crate) pass: Ticket,
    pub(crate) number: LaneNo,
    /// How many lanes there are. Station s stands at position s / lanes.
    pub(crate) lanes: u16,
    pub(crate) stations: Vec<Station>,
    pub(crate) waiting: Option<Entry>,
    pub(crate) kept: u32,
    pub(crate) repeats: u32,
}

impl Lane {
    ghost use Rattle.plum_lanes.specs.Opening.{Opening};
    ghost use Rattle.plum_lanes.specs.Lanes.{IsLane, HasTaken, KeepsTaken, IsForLane};
    ghost use Rattle.plum_lanes.specs.Lanes.{Tells, Counts, Offers, IfBusy, WasFull, sent};
    ghost use Rattle.plum_lanes.specs.Lanes.{waiting_in, kept_by, repeats_of};

    /// Takes a packet of one of its stations, while nothing waits. The entry of a kept one waits
    /// then.
    pub fn take(&mut self, packet: Packet) -> Took
        requires free { waiting_in self.old ≡ None }
        requires few { kept_by self.old + repeats_of self.old < 2 ^ 32 - 1 }
        requires lane { (opening : Opening) × (number : ℕ) × (taken : List Packet)
            × HasTaken opening number taken self.old × IsForLane opening number packet }
        ensures taken { (opening : Opening) (number : ℕ) (taken : List Packet)
            → HasTaken opening number taken self.old → IsForLane opening number packet
            → HasTaken opening number (taken ++ packet ∷ []) self.new
            × Tells taken packet result self.new }
        ensures counts { Counts self.old result self.new }
        ensures sent { sent self.new ≡ sent self.old }
    {
        // For the contract: what a packet does to a lane.
        giving_keeps_backlog();
        let position = (packet.station.0 / self.lanes) as usize;
        match self.stations[position].take(self.number, packet) {
            Taken::Kept(entry) => {
                self.kept += 1;
                self.waiting = Some(entry);
                Took::Ready
            }
            Taken::Repeat { last } => {
                self.repeats += 1;
                Took::Repeat { last }
            }
        }
    }

    /// Whether an entry waits to be sent.
    pub fn waiting(&self) -> bool
        ensures { IsTrue result ↔ IsSome (waiting_in self.now) }
    {
        self.waiting.is_some()
    }

    /// How many packets it kept since the opening.
    pub fn kept(&self) -> u32
        ensures { result ≡ kept_by self.now }
    {
        self.kept
    }

    /// How many packets it told as repeats since the opening.
    pub fn repeats(&self) -> u32
        ensures { result ≡ repeats_of self.now }
    {
        self.repeats
    }

    /// Offers the entry that waits to the queue. `Busy` where the queue was full; the entry waits
    /// on then.
    pub fn offer<R: Wait>(&mut self, rt: &R) -> Offered
        requires waits { IsSome (waiting_in self.old) }
        requires lane { (opening : Opening) × (number : ℕ) × (taken : List Packet)
            × HasTaken opening number taken self.old }
        ensures taken { KeepsTaken self.old self.new }
        ensures offers { Offers self.old result self.new }
        ensures busy { (opening : Opening) (number : ℕ) → IsLane opening number self.old
            → IfBusy result (WasFull opening number self.old) }
        ensures counts { (kept_by self.new ≡ kept_by self.old)
            × (repeats_of self.new ≡ repeats_of self.old) }
    {
        // For the contract: what sending does to the backlog.
        sending_keeps_validity();
        let entry = self.waiting.take().unwrap();
        match send(rt, &self.ring, &mut self.pass, entry) {
            Ok(()) => Offered::Sent,
            Err(back) => {
                self.waiting = Some(back);
                Offered::Busy
            }
        }
    }
}
