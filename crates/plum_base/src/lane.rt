//! The lane of a station; what a lane tells of the packets that it is offered, and of the entries
//! that it sends.

ghost use Rattle.std.specs.Prelude.{◌≡◌, ◌<◌, ◌≤◌};
ghost use Rattle.plum_base.specs.Lane.{lane_of};

use crate::numbers::{Key, LaneNo, StationNo};

/// The lane of a station, where there are so many lanes.
pub fn lane_of(lanes: u16, station: StationNo) -> LaneNo
    requires { 1 ≤ lanes }
    ensures value { result.0 ≡ lane_of lanes station.0 }
    ensures bound { result.0 < lanes }
{
    LaneNo(station.0 % lanes)
}

/// What a lane tells of a packet.
#[derive(Clone, Copy, Debug, PartialEq, Eq)]
pub enum Took {
    /// Its entry waits to be sent.
    Ready,
    /// Its key is not above `last`, the greatest key before it.
    Repeat { last: Key },
}

/// What a lane tells of an entry that waits.
#[derive(Clone, Copy, Debug, PartialEq, Eq)]
pub enum Offered {
    /// The entry was sent.
    Sent,
    /// The queue was full, and the entry waits on.
    Busy,
}
