//! A station: its keys and its engine.

ghost use Rattle.std.specs.Prelude.{◌≡◌, ℕ, List, [], ◌∷◌, ◌++◌, IfOk};
ghost use Rattle.plum_base.specs.declared.packet.Packet.{Packet};
ghost use Rattle.plum_base.specs.declared.setup.Setup.{Setup};
ghost use Rattle.plum_core.specs.Station.{Stands, Gives};

use plum_base::{Entry, Key, LaneNo, NoMemory, Packet, Setup};
use plum_engine::Engine;
use plum_seq::{Seq, Verdict, kept_packets};
use std::alloc::Global;

/// One station at work.
#[derive(Drop)]
pub struct Station {
    keys: Seq,
    engine: Engine,
}

/// What becomes of a packet.
#[derive(Debug, Drop)]
pub enum Taken {
    /// It is kept, with this entry.
    Kept(Entry),
    /// Its key is not greater than `last`, the greatest before.
    Repeat { last: Key },
}

impl Station {
    /// A station to which nothing was given. It takes all its memory here.
    pub fn new(alloc: Global, setup: &Setup) -> Result<Station, NoMemory>
        ensures { (s : ℕ) → IfOk result (λ station. Stands station setup.now s []) }
    {
        Ok(Station {
            keys: Seq::new(),
            engine: Engine::new(alloc, setup)?,
        })
    }

    /// Takes the next packet of the station, which is of this lane.
    pub fn take(&mut self, lane: LaneNo, packet: Packet) -> Taken
        ensures stands { (setup : Setup) (packets : List Packet)
            → Stands self.old setup packet.station.0 packets
            → Stands self.new setup packet.station.0 (packets ++ packet ∷ []) }
        ensures gives { (setup : Setup) (packets : List Packet)
            → Stands self.old setup packet.station.0 packets
            → Gives setup packets lane packet result }
    {
        // For the contract: what the packet does to the kept ones.
        kept_packets();
        let fresh = match self.keys.judge(packet.key) {
            Verdict::Repeat { last } => return Taken::Repeat { last },
            Verdict::Fresh => true,
            Verdict::Continues => false,
        };
        let value = self.engine.absorb(fresh, &packet.wave);
        Taken::Kept(Entry {
            station: packet.station,
            lane,
            key: packet.key,
            fresh,
            wave: packet.wave,
            value,
        })
    }
}
