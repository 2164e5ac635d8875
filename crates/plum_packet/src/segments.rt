//! The segments of a capture, one after another, and their laws.

ghost use Rattle.std.specs.Prelude.{◌≡◌, ◌≢◌, ◌+◌, ◌<◌, ◌≤◌, ℕ, List, [], length, Ok, None, Some};
ghost use Rattle.std.specs.Prelude.{IfOk, OnOk, IfErr, OnErr, IfSome, IfNone, IsErrOf};
ghost use Rattle.std.specs.Prelude.{IsTrue, IsFalse};
ghost use Rattle.plum_host.specs.Frames.{OnlyReads};
ghost use Rattle.plum_host.specs.declared.host.In.TheVariants.{Capture};
ghost use Rattle.plum_packet.specs.Capture.{HasRecord};
ghost use Rattle.plum_packet.specs.Counting.{CountsFault};
ghost use Rattle.plum_packet.specs.Laws.{HoldEachBody, NoneTooLong, OneSegment, OnlyCut};
ghost use Rattle.plum_packet.specs.Laws.{DecodedInOneWay};
ghost use Rattle.plum_packet.specs.Segments.{SEGMENT_BODIES, segments_from, CutsSegments};
ghost use Rattle.plum_packet.specs.declared.records.Progress.TheVariants.{Open, Ended, Over};

use crate::records::{Records, RecordsFault};
use crate::segment::Segment;
use plum_base::{NoMemory, Sites};
use plum_host::Host;
use std::alloc::{AllocFailed, Global};
use std::marker::Model;

/// How many bodies a segment holds at most. Marks are not counted.
pub const SEGMENT_BODIES: u32 = 65_536;

/// Why no segment, or no body, was given: a read failed, the capture has more records than the
/// reader takes, or memory was refused.
#[derive(Clone, Copy, Debug, PartialEq, Eq)]
pub enum SegmentFault {
    Read,
    Limit,
    NoMemory,
}

impl From<RecordsFault> for SegmentFault {
    ghost use Rattle.plum_packet.specs.Counting.{fault_of_records};

    ghost from_gives = { λ fault e. e ≡ fault_of_records fault };

    fn from(fault: RecordsFault) -> SegmentFault {
        match fault {
            RecordsFault::Read => SegmentFault::Read,
            RecordsFault::Limit => SegmentFault::Limit,
        }
    }
}

impl From<NoMemory> for SegmentFault {
    ghost use Rattle.plum_packet.specs.declared.segments.SegmentFault.TheVariants as faults;

    ghost from_gives = { λ _ e. e ≡ faults.NoMemory };

    fn from(_refusal: NoMemory) -> SegmentFault {
        SegmentFault::NoMemory
    }
}

/// A reader of the segments of a capture.
#[derive(Drop)]
pub struct Segments {
    records: Records,
}

impl Model for Segments {
    ghost use Rattle.std.specs.Prelude.{◌≤◌};
    ghost use Rattle.plum_packet.specs.Records.{RecordsView};

    ghost Value = { RecordsView };

    ghost view = { λ s. s.records };

    ghost invariant = { λ s. s.records.given ≤ s.records.limit };
}

impl Segments {
    ghost use Rattle.plum_base.specs.declared.sites.StationSite.{StationSite};
    ghost use Rattle.plum_base.specs.Packet.{AreListed};
    ghost use Rattle.plum_packet.specs.Reading.{bodies_in, HasGiven, GivesSegment};
    ghost use Rattle.plum_packet.specs.Reading.{GoesOnWithin, EndsSegment, TakesRecords};
    ghost use Rattle.plum_packet.specs.Reading.{FailsInSegments, ExceedsInSegments};
    ghost use Rattle.plum_packet.specs.Records.{segments_left, tail_of};

    /// A reader of a capture of at most `limit` records.
    pub fn new(alloc: Global, limit: u32) -> Result<Segments, NoMemory>
        ensures view { IfOk result (λ s. s
            ≡ record { limit = limit; given = 0; last = []; ahead = []; progress = Open }) }
        ensures start { (stations : List StationSite) (capture : List ℕ)
            → IfOk result (λ s. HasGiven stations capture [] s (Some capture)) }
    {
        Ok(Segments {
            records: Records::new(alloc, limit)?,
        })
    }

    /// Gives the next segment, its bodies decoded: it ends at a mark, where it is full, or with the
    /// capture. None after the last one, and from then on.
    ///
    /// What was taken of a segment before a fault is lost.
    pub fn next<H: Host>(
        &mut self,
        alloc: Global,
        sites: &Sites,
        host: &mut H,
    ) -> Result<Option<Segment>, SegmentFault>
        requires within { self.old.progress ≢ Over }

        // The next segment of the capture.
        ensures some { IfOk result (λ found. IfSome found (λ segment.
            GivesSegment sites.now.stations self.old ((H.told host.old).left Capture)
            self.new ((H.told host.new).left Capture) segment)) }
        ensures begun { IfOk result (λ found. IfSome found (λ _. self.old.progress ≡ Open)) }
        ensures progress { IfOk result (λ found. IfSome found (λ _. self.new.progress ≢ Over)) }
        ensures listed { IfOk result (λ found. IfSome found (λ segment.
            AreListed (length sites.now.stations) segment.packets.items)) }

        // None exactly after the last one.
        ensures none { IfOk result (λ found. IfNone found (self.old.progress ≡ Ended)) }
        ensures ended { self.old.progress ≡ Ended
            → (result ≡ Ok None) × (self.new ≡ self.old) × (host.new ≡ host.old) }

        // Each body, and each segment but the last, took a record.
        ensures bodies { IfOk result (λ found. IfSome found (λ segment.
            self.old.given + length segment.packets.items + length segment.refused.items
            ≤ self.new.given)) }
        ensures more { IfOk result (λ found. IfSome found (λ _. self.new.progress ≡ Open
            → self.old.given < self.new.given)) }
        ensures fewer { IfOk result (λ found. IfSome found (λ _.
            segments_left self.new < segments_left self.old)) }
        ensures limit { self.new.given ≤ self.new.limit }
        ensures same_limit { self.new.limit ≡ self.old.limit }

        // A fault comes before another record is whole, or at a record too many.
        ensures taken { OnErr result (TakesRecords self.old ((H.told host.old).left Capture)
            self.new ((H.told host.new).left Capture)) }
        ensures read { IsErrOf result SegmentFault.Read
            → FailsInSegments sites.now.stations self.old ((H.told host.old).left Capture)
            ((H.told host.new).left Capture) }
        ensures over { IsErrOf result SegmentFault.Limit
            → ExceedsInSegments sites.now.stations self.old ((H.told host.old).left Capture) }

        // The one fault that stopped it is counted, and nothing else.
        ensures no_fault { OnOk result
            ((H.told host.new).read_faults ≡ (H.told host.old).read_faults) }
        ensures fault { IfErr result (λ fault.
            CountsFault fault (H.told host.old) (H.told host.new)) }
        ensures frame { OnlyReads Capture (H.told host.old) (H.told host.new) }
    {
        if self.records.has_ended() {
            return Ok(None);
        }
        let mut segment = Segment::new(alloc);
        'bodies: while self.take(alloc, sites, host, &mut segment)? {}
        Ok(Some(segment))
    }

    /// Takes one record more for a segment that has room. Tells whether the segment goes on: else
    /// it ended at a mark, or is full, or the capture ended.
    fn take<H: Host>(
        &mut self,
        alloc: Global,
        sites: &Sites,
        host: &mut H,
        segment: &mut Segment,
    ) -> Result<bool, SegmentFault>
        requires begun { self.old.progress ≡ Open }
        requires room { bodies_in segment.old < SEGMENT_BODIES }

        ensures more { IfOk result (λ more. IsTrue more → GoesOnWithin sites.now.stations
            self.old ((H.told host.old).left Capture) segment.old
            self.new ((H.told host.new).left Capture) segment.new) }
        ensures last { IfOk result (λ more. IsFalse more → EndsSegment sites.now.stations
            self.old ((H.told host.old).left Capture) segment.old
            self.new ((H.told host.new).left Capture) segment.new) }
        ensures still_open { IfOk result (λ more. IsTrue more → self.new.progress ≡ Open) }
        ensures room { IfOk result (λ more. IsTrue more → bodies_in segment.new < SEGMENT_BODIES) }
        ensures progress { OnOk result (self.new.progress ≢ Over) }
        ensures listed { AreListed (length sites.now.stations) segment.old.packets.items
            → AreListed (length sites.now.stations) segment.new.packets.items }

        // Each body took a record, and so did a mark.
        ensures bodies { OnOk result
            (self.old.given + bodies_in segment.new ≤ self.new.given + bodies_in segment.old) }
        ensures given { OnOk result (self.new.progress ≡ Open
            → self.new.given ≡ self.old.given + 1) }
        ensures limit { self.new.given ≤ self.new.limit }
        ensures same_limit { self.new.limit ≡ self.old.limit }

        ensures frame { OnlyReads Capture (H.told host.old) (H.told host.new) }
        ensures taken { TakesRecords self.old ((H.told host.old).left Capture)
            self.new ((H.told host.new).left Capture) }

        // A fault is counted, and stops the reader as `next` says.
        ensures fault { IfErr result (λ fault.
            CountsFault fault (H.told host.old) (H.told host.new)) }
        ensures no_fault { OnOk result
            ((H.told host.new).read_faults ≡ (H.told host.old).read_faults) }
        ensures over { IsErrOf result SegmentFault.Limit
            → (self.new.given ≡ self.new.limit) × HasRecord self.new.ahead }
        ensures read { IsErrOf result SegmentFault.Read → ¬ HasRecord self.new.ahead }
    {
        let Some(body) = self.records.next(host)? else {
            return Ok(false);
        };
        if body.mark {
            return Ok(false);
        }
        segment.push(alloc, sites, body.number, self.records.bytes())?;
        Ok(segment.bodies() < SEGMENT_BODIES as usize)
    }

    /// How many bytes the tail has, once the last segment was given, and 0 before.
    pub fn tail(&self) -> u32
        ensures { result ≡ tail_of self.now }
    {
        self.records.tail()
    }
}

/// A law: the segments of a capture hold its bodies that are not marks, each once and in order, and
/// none holds too many. They decode in one way.
///
/// A segment ends at a mark, or where it is full, or with the capture: this alone decides all
/// segments.
pub fn segments_hold_each_body()
    ensures joined { HoldEachBody }
    ensures bound { NoneTooLong }
    ensures one { OneSegment }
    ensures cuts { CutsSegments (λ n bodies. segments_from n [] bodies) }
    ensures only { OnlyCut }
    ensures decoded { DecodedInOneWay }
{}
