//! What happens in a centre, one step of one actor at a time, and what is replied.

ghost use Rattle.std.specs.Prelude.{◌↔◌, IsTrue};

use plum_base::{AreaNo, Key, LaneNo, Offered, Packet, Reading, Setup, Sites, Took};

/// One step of one actor: a lane, the gatherer, the publisher or an area's session.
#[derive(Debug, Drop)]
pub enum Event {
    /// A packet comes to the lane of its station.
    Take(Packet),
    /// The lane offers its waiting entry to the queue.
    Offer(LaneNo),
    /// The gatherer takes the first entry of the queue.
    Pop,
    /// The next gathered entry is appended to what is to be published.
    Append,
    /// All that was appended is published.
    Publish,
    /// The session of the area reads the published board.
    Read(AreaNo),
    /// The session of the area is told that so many entries are published.
    Learn(AreaNo, u64),
}

impl Event {
    ghost use Rattle.plum_core.specs.Machine.{NamesExist};

    /// Whether the station, the lane or the area that the event names exists.
    pub fn names_what_exists(&self, sites: &Sites, setup: &Setup) -> bool
        ensures { IsTrue result ↔ NamesExist setup.now sites.now self.now }
    {
        match self {
            Event::Take(packet) => (packet.station.0 as usize) < sites.stations().len(),
            Event::Offer(lane) => lane.0 < setup.lanes,
            Event::Pop | Event::Append | Event::Publish => true,
            Event::Read(area) | Event::Learn(area, _) => area.0 < sites.areas(),
        }
    }
}

/// The reply to an event.
#[derive(Debug, Drop)]
pub enum Reply {
    /// The packet was taken, and is kept or a repeat.
    Took(Took),
    /// An entry waits in the lane, which took nothing.
    Held,
    /// The waiting entry was sent, or the queue is full.
    Offered(Offered),
    /// Nothing waits in the lane.
    Idle,
    /// The key of the entry that was gathered.
    Popped(Key),
    /// The queue holds nothing.
    Empty,
    Appended,
    /// All that is gathered is appended, or so many entries are not published.
    Nothing,
    /// How many entries are published.
    Published(u64),
    Read(Reading),
    /// How many entries the session has seen.
    Learned(u64),
}
