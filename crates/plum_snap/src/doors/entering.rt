//! Entering with a reader.

ghost use Rattle.std.specs.Prelude.{◌≡◌, ◌⊎◌, true, length, MatchResult};
ghost use mathlib.Core.List.{IsPrefix};
ghost use Rattle.std.specs.Arc.{arc_value};
ghost use Rattle.left_right.specs.Sides as sides;
ghost use Rattle.plum_snap.specs.Doors.{LetsIn, TurnsAway, left_from};
ghost use Rattle.plum_snap.specs.Limits.{limit_word};

use crate::ends::Eye;
use crate::limit::SharedLimit;
use crate::receipt::Receipt;
use crate::rule::{Sees, Shared, View};
use crate::snapshot::Snapshot;
use left_right::reader::Reading;
use plum_board::Board;
use std::marker::Model;
use std::sync::Arc;

/// A place at the published board, with what has been seen from it. Contracts see whose it is, of
/// which sites, the entries seen, and how often it was shut.
#[derive(Drop)]
pub(crate) struct Entrance {
    reader: Eye,
    /// Up to where the list is published.
    limit: Arc<SharedLimit>,
    seen: Receipt,
    /// It stands still at its end.
    shut: u64,
}

impl Model for Entrance {
    ghost use Rattle.std.specs.Prelude.{◌≡◌, true};
    ghost use Rattle.std.specs.Arc.{arc_value};
    ghost use Rattle.left_right.specs.Sides as sides;
    ghost use Rattle.plum_snap.specs.Doors.{EntranceView};
    ghost use Rattle.plum_snap.specs.Limits.{limit_word};

    ghost Value = { EntranceView };

    ghost view = { λ e. record {
      publisher = e.seen.publisher;
      sites = (sides.view e.reader.place).seen.board.sites;
      seen = e.seen.entries;
      shut = e.shut;
    } };

    ghost invariant = { λ e. ((sides.view e.reader.place).known ≡ true)
        × ((sides.view e.reader.place).seen.front.list ≡ e.seen.publisher.list)
        × (arc_value e.limit ≡ limit_word e.seen.publisher.limit) };
}

/// Inside, with the board that is published. It is not `Drop`: end it by `leave`.
pub(crate) struct Inside {
    reading: Reading<Snapshot, View, Shared>,
    limit: Arc<SharedLimit>,
    seen: Receipt,
    shut: u64,
}

impl Model for Inside {
    ghost use Rattle.std.specs.Prelude.{◌≡◌};
    ghost use Rattle.std.specs.Arc.{arc_value};
    ghost use Rattle.left_right.specs.Sides as sides;
    ghost use Rattle.plum_snap.specs.Doors.{InsideView};
    ghost use Rattle.plum_snap.specs.Limits.{limit_word};
    ghost use Rattle.plum_snap.specs.Rule.{saw};

    ghost Value = { InsideView };

    ghost view = { λ i. record {
      publisher = i.seen.publisher;
      shown = i.reading.part.value;
      shut = i.shut;
    } };

    ghost invariant = { λ i. (sides.view i.reading.place ≡ saw i.reading.part.value)
        × (i.seen.publisher.list ≡ i.reading.part.value.front.list)
        × (i.seen.entries ≡ i.reading.part.value.front.entries)
        × (arc_value i.limit ≡ limit_word i.seen.publisher.limit) };
}

impl Entrance {
    /// A place that was never shut.
    pub(crate) fn new(reader: Eye, limit: Arc<SharedLimit>, seen: Receipt) -> Entrance
        requires known { (sides.view reader.place).known ≡ true }
        requires one { (sides.view reader.place).seen.front.list ≡ seen.publisher.list }
        requires limit { arc_value limit ≡ limit_word seen.publisher.limit }
        ensures { result ≡ record {
          publisher = seen.publisher;
          sites = (sides.view reader.place).seen.board.sites;
          seen = seen.entries;
          shut = 0;
        } }
    {
        Entrance {
            reader,
            limit,
            seen,
            shut: 0,
        }
    }

    /// How often it was shut.
    pub(crate) fn shut(&self) -> u64
        ensures { result ≡ self.now.shut }
    {
        self.shut
    }

    /// What has been seen from it.
    pub(crate) fn seen(&self) -> &Receipt
        ensures { result.now ≡ record {
          publisher = self.now.publisher;
          entries = self.now.seen;
        } }
    {
        &self.seen
    }

    /// The longer of what was seen and the receipt is seen.
    pub(crate) fn learn(&mut self, receipt: Receipt)
        requires { receipt.publisher ≡ self.old.publisher }
        ensures one { (self.new ≡ self.old)
            ⊎ (self.new ≡ record self.old { seen = receipt.entries }) }
        ensures this { IsPrefix self.old.seen self.new.seen }
        ensures that { IsPrefix receipt.entries self.new.seen }
    {
        self.seen = self.seen.again().longer(receipt);
    }

    /// The board that is published, which goes on from what was seen.
    ///
    /// A reader that comes back, or finds less than was seen or more than is published, which no
    /// run does, is counted.
    pub(crate) fn enter(self) -> Result<Inside, Entrance>
        ensures { MatchResult result (LetsIn self) (TurnsAway self) }
    {
        let Entrance {
            reader,
            limit,
            seen,
            shut,
        } = self;
        let refused = shut.saturating_add(1);
        match reader.enter_as::<Sees>() {
            Ok(reading) => match seen.up_to(&reading.get().front, &limit) {
                Some(front) => Ok(Inside {
                    reading,
                    limit,
                    seen: front,
                    shut,
                }),
                None => Err(Entrance {
                    reader: reading.leave(),
                    limit,
                    seen,
                    shut: refused,
                }),
            },
            Err(reader) => Err(Entrance {
                reader,
                limit,
                seen,
                shut: refused,
            }),
        }
    }
}

impl Inside {
    pub(crate) fn board(&self) -> &Board
        ensures { result.now ≡ self.now.shown.board }
    {
        &self.reading.get().board
    }

    /// How many entries the board has.
    pub(crate) fn count(&self) -> u64
        ensures { result ≡ length self.now.shown.front.entries }
    {
        self.seen.count()
    }

    pub(crate) fn leave(self) -> Entrance
        ensures { result ≡ left_from self }
    {
        let Inside {
            reading,
            limit,
            seen,
            shut,
        } = self;
        Entrance {
            reader: reading.leave(),
            limit,
            seen,
            shut,
        }
    }
}
