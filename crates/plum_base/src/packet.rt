//! A packet, and what can be wrong with its bytes.

use crate::numbers::{Key, StationNo};
use crate::wave::Wave;

/// A decoded packet of one station.
#[derive(Debug, Drop)]
pub struct Packet {
    pub station: StationNo,
    pub key: Key,
    pub wave: Wave,
}

/// Why a body is no packet: the first of these that applies, in this order.
#[derive(Clone, Copy, Debug, PartialEq, Eq)]
pub enum PacketFault {
    /// Fewer bytes than a header has.
    Short,
    /// It does not begin with `PL`.
    Magic,
    /// A version other than 1.
    Version(u8),
    /// Flags other than 0.
    Flags(u8),
    /// The code of no listed station.
    Station(u16),
    /// A count of 0 or above 200.
    Count(u16),
    /// Another length than the count asks for, in bytes.
    Length { expected: u32, found: u32 },
}

/// A body that is no packet.
#[derive(Clone, Copy, Debug, PartialEq, Eq)]
pub struct RefusedBody {
    /// The number of its record in the capture, from 1, marks included.
    pub number: u32,
    pub fault: PacketFault,
}
