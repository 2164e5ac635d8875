//! A segment, its bodies decoded.

ghost use Rattle.std.specs.Prelude.{◌≡◌, ◌+◌, ◌^◌, ◌<◌, [], length, Result, OnOk, OnErr};
ghost use Rattle.plum_base.specs.declared.packet.Packet.{Packet};
ghost use Rattle.plum_base.specs.declared.packet.PacketFault.{PacketFault};
ghost use Rattle.plum_base.specs.Packet.{AreListed};
ghost use Rattle.plum_packet.specs.Reading.{bodies_in, HoldsOneMore};
ghost use Rattle.plum_packet.specs.Segments.{DecodesAs};

use crate::body::{DecodeFault, decode};
use plum_base::{NoMemory, Packet, RefusedBody, Sites};
use std::alloc::Global;

/// What the bodies of a segment are, in file order each.
#[derive(Drop)]
pub struct Segment {
    pub packets: Vec<Packet>,
    /// Those that are no packets.
    pub refused: Vec<RefusedBody>,
}

impl Segment {
    /// No body came yet.
    pub fn new(alloc: Global) -> Segment
        ensures packets { result.packets.items ≡ [] }
        ensures refused { result.refused.items ≡ [] }
    {
        Segment {
            packets: Vec::new(alloc),
            refused: Vec::new(alloc),
        }
    }

    /// How many bodies came.
    pub fn bodies(&self) -> usize
        ensures { result ≡ bodies_in self.now }
    {
        self.packets.len() + self.refused.len()
    }

    /// One body more came, of the record of that number.
    pub fn push(
        &mut self,
        alloc: Global,
        sites: &Sites,
        number: u32,
        bytes: &[u8],
    ) -> Result<(), NoMemory>
        requires { length bytes.now < 2 ^ 32 }

        // It joins its kind, with its number.
        ensures body { OnOk result ((body : Result Packet PacketFault)
            × DecodesAs sites.now.stations bytes.now body
            × HoldsOneMore self.old self.new (number, body)) }
        ensures count { OnOk result (bodies_in self.new ≡ bodies_in self.old + 1) }
        ensures listed { AreListed (length sites.now.stations) self.old.packets.items
            → AreListed (length sites.now.stations) self.new.packets.items }

        // Where memory was refused nothing was taken.
        ensures packets { OnErr result (self.new.packets.items ≡ self.old.packets.items) }
        ensures refused { OnErr result (self.new.refused.items ≡ self.old.refused.items) }
    {
        match decode(alloc, bytes, sites) {
            Ok(packet) => self.packets.push(packet)?,
            Err(DecodeFault::Packet(fault)) => self.refused.push(RefusedBody { number, fault })?,
            Err(DecodeFault::NoMemory) => return Err(NoMemory),
        }
        Ok(())
    }
}
