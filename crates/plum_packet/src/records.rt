//! A reader of records.

ghost use Rattle.std.specs.Prelude.{◌≡◌, ◌↔◌, ℕ, ◌+◌, ◌≤◌, ◌++◌, List, [], length, IsTrue};
ghost use Rattle.std.specs.Prelude.{Some, None};
ghost use Rattle.std.specs.Prelude.{IfOk, OnOk, IfErr, IfSome, IfNone, OnErr, IsErrOf};
ghost use Rattle.plum_host.specs.declared.host.In.TheVariants.{Capture};
ghost use Rattle.plum_host.specs.Faults.{HasRisen};
ghost use Rattle.plum_host.specs.Frames.{OnlyReads};
ghost use Rattle.plum_packet.specs.Capture.{LONGEST_BODY};
ghost use Rattle.plum_packet.specs.declared.records.Progress.TheVariants.{Open, Ended, Over};
ghost use Rattle.plum_packet.specs.Capture.{mark_body, record_of, HasRecord, IsBody};

use crate::block::Block;
use crate::last_body::LastBody;
use plum_base::NoMemory;
use plum_host::{Failed, Host};
use std::alloc::Global;
use std::marker::Model;

/// A record that was read. Its body stands in the reader.
#[derive(Clone, Copy, Debug, PartialEq, Eq)]
pub struct Body {
    /// Its number in the capture, from 1, marks included.
    pub number: u32,
    pub mark: bool,
}

/// Why no record was given: a read failed, or a whole record stands behind as many as the reader
/// gives.
#[derive(Clone, Copy, Debug, PartialEq, Eq)]
pub enum RecordsFault {
    Read,
    Limit,
}

/// Whether a reader may find more records, has met the end of the input, or a record too many.
#[derive(Clone, Copy, Debug, PartialEq, Eq)]
pub enum Progress {
    Open,
    Ended,
    Over,
}

/// The records of the longest capture.
pub const MOST_RECORDS: u32 = 4_294_967_294;

/// The body of a mark.
const MARK: &[u8] = b"MK";

/// A reader of the records of a capture. It reads in blocks, in whatever pieces the host gives
/// them, so that a record may stand in two.
#[derive(Drop)]
pub struct Records {
    limit: u32,
    given: u32,
    progress: Progress,
    last: LastBody,
    ahead: Block,
}

impl Model for Records {
    ghost use Rattle.std.specs.Prelude.{◌≤◌};
    ghost use Rattle.plum_packet.specs.Records.{RecordsView};

    ghost Value = { RecordsView };

    ghost view = { λ r. record {
      limit = r.limit;
      given = r.given;
      last = r.last;
      ahead = r.ahead;
      progress = r.progress;
    } };

    ghost invariant = { λ r. r.given ≤ r.limit };
}

impl Records {
    ghost use Rattle.plum_packet.specs.Records.{StandsAt, GivesRecord, GivesNoMore, GoesOn, Ends};
    ghost use Rattle.plum_packet.specs.Records.{tail_of};

    /// A reader that gives at most `limit` records. It takes all its memory here.
    pub fn new(alloc: Global, limit: u32) -> Result<Records, NoMemory>
        ensures view { IfOk result (λ r. r
            ≡ record { limit = limit; given = 0; last = []; ahead = []; progress = Open }) }
        ensures start { (capture : List ℕ)
            → IfOk result (λ r. StandsAt capture [] r (Some capture)) }
    {
        Ok(Records {
            limit,
            given: 0,
            progress: Progress::Open,
            last: LastBody::new(alloc)?,
            ahead: Block::new(alloc)?,
        })
    }

    /// Gives the next record, or none at the end of the input, and from then on.
    ///
    /// After a read that failed a later call goes on where that one stopped.
    pub fn next<H: Host>(&mut self, host: &mut H) -> Result<Option<Body>, RecordsFault>
        // The next record of the capture, whose body is then the last one.
        ensures number { IfOk result (λ found. IfSome found (λ body.
            (body.number ≡ self.old.given + 1) × (self.new.given ≡ body.number)
            × (body.number ≤ self.old.limit))) }
        ensures mark { IfOk result (λ found. IfSome found (λ body.
            IsTrue body.mark ↔ (self.new.last ≡ mark_body))) }
        ensures some { IfOk result (λ found. IfSome found (λ _.
            GivesRecord self.old ((H.told host.old).left Capture)
            self.new ((H.told host.new).left Capture))) }
        ensures still_open { IfOk result (λ found. IfSome found (λ _. self.new.progress ≡ Open)) }

        // None exactly at the end of the input: what is ahead is the tail.
        ensures none { IfOk result (λ found. IfNone found (self.old.progress ≡ Open
            → Ends self.old ((H.told host.old).left Capture)
            self.new ((H.told host.new).left Capture))) }
        ensures end { IfOk result (λ found. IfNone found
            ((self.new.progress ≡ Ended) × GivesNoMore self.old self.new)) }

        // A read that failed is one fault more. It loses nothing, and comes before the next record
        // is whole.
        ensures read { IsErrOf result RecordsFault.Read
            → HasRisen (H.told host.old).read_faults (H.told host.new).read_faults }
        ensures short { IsErrOf result RecordsFault.Read → ¬ HasRecord self.new.ahead }
        ensures goes_on { IsErrOf result RecordsFault.Read → (self.new.progress ≡ Open)
            × GoesOn self.old ((H.told host.old).left Capture)
            self.new ((H.told host.new).left Capture) }

        // A whole record behind as many as the reader gives: it stays ahead.
        ensures limit { IsErrOf result RecordsFault.Limit → self.old.progress ≡ Open
            → (self.old.given ≡ self.old.limit) × HasRecord self.new.ahead
            × GoesOn self.old ((H.told host.old).left Capture)
            self.new ((H.told host.new).left Capture) }
        ensures over { IsErrOf result RecordsFault.Limit → self.new.progress ≡ Over }
        ensures err { OnErr result (GivesNoMore self.old self.new) }

        // The end, and the limit, stay.
        ensures ended { self.old.progress ≡ Ended
            → (result ≡ Ok None) × (self.new ≡ self.old) × (host.new ≡ host.old) }
        ensures still_over { self.old.progress ≡ Over
            → (result ≡ Err RecordsFault.Limit) × (self.new ≡ self.old) × (host.new ≡ host.old) }

        // Nothing else is a fault.
        ensures no_fault { OnOk result
            ((H.told host.new).read_faults ≡ (H.told host.old).read_faults) }
        ensures limit_no_fault { IsErrOf result RecordsFault.Limit
            → (H.told host.new).read_faults ≡ (H.told host.old).read_faults }

        ensures same_limit { self.new.limit ≡ self.old.limit }
        ensures frame { OnlyReads Capture (H.told host.old) (H.told host.new) }
    {
        match self.progress {
            Progress::Ended => Ok(None),
            Progress::Over => Err(RecordsFault::Limit),
            Progress::Open => match self.ahead.complete(host) {
                Ok(true) => Ok(Some(self.give()?)),
                Ok(false) => {
                    self.progress = Progress::Ended;
                    Ok(None)
                }
                Err(Failed) => Err(RecordsFault::Read),
            },
        }
    }

    /// Gives the first record ahead, which is whole, where another one may be given.
    fn give(&mut self) -> Result<Body, RecordsFault>
        requires { HasRecord self.old.ahead }
        ensures number { IfOk result (λ body. body.number ≡ self.old.given + 1) }
        ensures mark { IfOk result (λ body. IsTrue body.mark ↔ (self.new.last ≡ mark_body)) }
        ensures first { OnOk result
            (self.old.ahead ≡ record_of self.new.last ++ self.new.ahead) }
        ensures body { OnOk result (IsBody self.new.last) }
        ensures given { OnOk result (self.new ≡ record self.old {
          given = self.old.given + 1;
          last = self.new.last;
          ahead = self.new.ahead;
        }) }
        ensures within { OnOk result (self.new.given ≤ self.new.limit) }
        ensures limit { IfErr result (λ fault. (fault ≡ RecordsFault.Limit)
            × (self.old.given ≡ self.old.limit)
            × (self.new ≡ record self.old { progress = Over })) }
    {
        if self.given == self.limit {
            self.progress = Progress::Over;
            return Err(RecordsFault::Limit);
        }
        self.given += 1;
        self.ahead.give(&mut self.last);
        Ok(Body {
            number: self.given,
            mark: self.bytes() == MARK,
        })
    }

    /// The body of the last record given, empty before the first.
    pub fn bytes(&self) -> &[u8]
        ensures value { result.now ≡ self.now.last }
        ensures bound { length result.now ≤ LONGEST_BODY }
    {
        self.last.as_slice()
    }

    /// Whether the end of the input was met.
    pub fn has_ended(&self) -> bool
        ensures { IsTrue result ↔ (self.now.progress ≡ Ended) }
    {
        self.progress == Progress::Ended
    }

    /// How many bytes the tail has, once the end of the input was met, and 0 before.
    pub fn tail(&self) -> u32
        ensures { result ≡ tail_of self.now }
    {
        match self.progress {
            Progress::Ended => self.ahead.count() as u32,
            Progress::Open | Progress::Over => 0,
        }
    }
}
