//! The bodies of a capture, decoded one after another.

ghost use Rattle.std.specs.Prelude.{◌≡◌, ◌≢◌, ◌+◌, ◌<◌, ◌≤◌, ◌^◌, ℕ, List, [], ◌∷◌, length};
ghost use Rattle.std.specs.Prelude.{IfOk, OnOk, IfErr, IfSome, IfNone, IsErrOf, Some, Result};
ghost use Rattle.plum_base.specs.declared.packet.Packet.{Packet};
ghost use Rattle.plum_base.specs.declared.packet.PacketFault.{PacketFault};
ghost use Rattle.plum_host.specs.Counting.{CountsNothing};
ghost use Rattle.plum_host.specs.Frames.{OnlyReads};
ghost use Rattle.plum_host.specs.declared.host.In.TheVariants.{Capture};
ghost use Rattle.plum_packet.specs.Bodies.{found_as, IsOfListed};
ghost use Rattle.plum_packet.specs.Counting.{CountsFault};
ghost use Rattle.plum_packet.specs.Laws.{GivenBegins};
ghost use Rattle.plum_packet.specs.Reading.{MOST_RECORDS};
ghost use Rattle.plum_packet.specs.Segments.{SEGMENT_BODIES, DecodesAs};
ghost use Rattle.plum_packet.specs.declared.records.Progress.TheVariants.{Open};

use crate::body::{DecodeFault, decode};
use crate::records::{MOST_RECORDS, Records};
use crate::segments::{SEGMENT_BODIES, SegmentFault};
use plum_base::{NoMemory, Packet, RefusedBody, Sites};
use plum_host::Host;
use std::alloc::Global;
use std::marker::Model;

/// What a record of a capture is.
#[derive(Drop)]
pub enum Found {
    Mark,
    Packet(Packet),
    /// Its body is neither.
    Refused(RefusedBody),
}

/// What the body of the record of that number is, which is no mark.
fn found_in(alloc: Global, sites: &Sites, number: u32, bytes: &[u8]) -> Result<Found, NoMemory>
    requires { length bytes.now < 2 ^ 32 }
    ensures body { IfOk result (λ found. (body : Result Packet PacketFault)
        × DecodesAs sites.now.stations bytes.now body
        × (found_as number found ≡ (number, body) ∷ [])) }
    ensures listed { IfOk result (IsOfListed (length sites.now.stations)) }
{
    match decode(alloc, bytes, sites) {
        Ok(packet) => Ok(Found::Packet(packet)),
        Err(DecodeFault::Packet(fault)) => Ok(Found::Refused(RefusedBody { number, fault })),
        Err(DecodeFault::NoMemory) => Err(NoMemory),
    }
}

/// A reader of the bodies of a capture that holds one of them at a time, and counts the segments.
#[derive(Drop)]
pub struct Bodies {
    records: Records,
    /// How many segments have begun.
    segments: u32,
    /// How many bodies the last of them has so far.
    begun: u32,
}

impl Model for Bodies {
    ghost use Rattle.std.specs.Prelude.{◌≡◌, ◌+◌, ◌<◌, ◌≤◌};
    ghost use Rattle.plum_packet.specs.Bodies.{BodiesView};
    ghost use Rattle.plum_packet.specs.Reading.{MOST_RECORDS};
    ghost use Rattle.plum_packet.specs.Segments.{SEGMENT_BODIES};

    ghost Value = { BodiesView };

    ghost view = { λ b. record { records = b.records; segments = b.segments; begun = b.begun } };

    ghost invariant = { λ b. (b.records.limit ≡ MOST_RECORDS) × (b.records.given ≤ MOST_RECORDS)
        × (b.segments ≤ b.records.given + 1) × (b.begun < SEGMENT_BODIES) };
}

impl Bodies {
    ghost use Rattle.plum_base.specs.declared.sites.StationSite.{StationSite};
    ghost use Rattle.plum_packet.specs.Bodies.{HasTold, FindsRecord, EndsBodies, FailsInBodies};
    ghost use Rattle.plum_packet.specs.Bodies.{ExceedsInBodies};
    ghost use Rattle.plum_packet.specs.Records.{tail_of};

    /// A reader of a capture of which nothing is read.
    pub fn new(alloc: Global) -> Result<Bodies, NoMemory>
        ensures start { (stations : List StationSite) (capture : List ℕ)
            → IfOk result (λ b. HasTold stations capture [] b (Some capture)) }
        ensures progress { IfOk result (λ b. b.records.progress ≡ Open) }
        ensures given { IfOk result (λ b. b.records.given ≡ 0) }
    {
        Ok(Bodies {
            records: Records::new(alloc, MOST_RECORDS)?,
            segments: 1,
            begun: 0,
        })
    }

    /// Gives the next record, its body decoded, or none at the end of the capture.
    pub fn next<H: Host>(
        &mut self,
        alloc: Global,
        sites: &Sites,
        host: &mut H,
    ) -> Result<Option<Found>, SegmentFault>
        requires progress { self.old.records.progress ≡ Open }

        // The next record of the capture.
        ensures some { IfOk result (λ record_found. IfSome record_found (λ found.
            FindsRecord sites.now.stations self.old ((H.told host.old).left Capture)
            self.new ((H.told host.new).left Capture) found)) }
        ensures progress { IfOk result (λ record_found. IfSome record_found (λ _.
            self.new.records.progress ≡ Open)) }
        ensures listed { IfOk result (λ record_found. IfSome record_found (λ found.
            IsOfListed (length sites.now.stations) found)) }
        ensures given { IfOk result (λ record_found. IfSome record_found (λ _.
            self.new.records.given ≡ self.old.records.given + 1)) }
        ensures bound { self.new.records.given ≤ MOST_RECORDS }

        // None exactly at the end of the capture.
        ensures none { IfOk result (λ record_found. IfNone record_found
            (EndsBodies sites.now.stations self.old ((H.told host.old).left Capture)
            self.new ((H.told host.new).left Capture))) }

        // A fault comes before another record is whole, or at a record too many.
        ensures read { IsErrOf result SegmentFault.Read
            → FailsInBodies sites.now.stations self.old ((H.told host.old).left Capture)
            ((H.told host.new).left Capture) }
        ensures over { IsErrOf result SegmentFault.Limit
            → ExceedsInBodies sites.now.stations self.old ((H.told host.old).left Capture) }

        // The one fault that stopped it is counted, and nothing else.
        ensures no_fault { OnOk result (CountsNothing (H.told host.old) (H.told host.new)) }
        ensures fault { IfErr result (λ fault.
            CountsFault fault (H.told host.old) (H.told host.new)) }
        ensures frame { OnlyReads Capture (H.told host.old) (H.told host.new) }
    {
        let Some(body) = self.records.next(host)? else {
            return Ok(None);
        };
        if body.mark {
            self.end_segment();
            return Ok(Some(Found::Mark));
        }
        let found = found_in(alloc, sites, body.number, self.records.bytes())?;
        self.count_body();
        Ok(Some(found))
    }

    /// A segment ended, and the next one begins.
    fn end_segment(&mut self)
        requires { self.old.segments ≤ self.old.records.given }
        ensures { self.new ≡ record self.old { segments = self.old.segments + 1; begun = 0 } }
    {
        self.segments += 1;
        self.begun = 0;
    }

    /// A body came. One that fills its segment ends it.
    fn count_body(&mut self)
        requires { self.old.segments ≤ self.old.records.given }
        ensures within { self.old.begun + 1 ≢ SEGMENT_BODIES
            → self.new ≡ record self.old { begun = self.old.begun + 1 } }
        ensures full { self.old.begun + 1 ≡ SEGMENT_BODIES
            → self.new ≡ record self.old { segments = self.old.segments + 1; begun = 0 } }
    {
        if self.begun + 1 == SEGMENT_BODIES {
            self.end_segment();
        } else {
            self.begun += 1;
        }
    }

    /// How many segments have begun: at the end of the capture, how many it has.
    pub fn segments(&self) -> u32
        ensures { result ≡ self.now.segments }
    {
        self.segments
    }

    /// How many bytes the tail has, once the end of the capture was met, and 0 before.
    pub fn tail(&self) -> u32
        ensures { result ≡ tail_of self.now.records }
    {
        self.records.tail()
    }
}

/// A law: what a reader has given of a capture begins the bodies of its segments.
pub fn given_bodies_begin()
    ensures { GivenBegins }
{}
