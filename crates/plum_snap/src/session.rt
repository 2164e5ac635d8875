//! A session: it reads the published board for the targets of its area, and never waits.

ghost use Rattle.std.specs.Prelude.{◌≡◌, ◌⊎◌, IfOk};
ghost use Rattle.std.specs.Bool.{MatchBool};
ghost use Rattle.std.specs.Borrow.{sem};
ghost use mathlib.Core.List.{IsPrefix};
ghost use Rattle.plum_snap.specs.Sessions.{HasRead, WasShutOut, first_reading};

use crate::answering::{answer, numbers_in, unanswered};
use crate::doors::Entrance;
use crate::receipt::Receipt;
use core::mem::replace_with;
use plum_base::{Name, NoMemory, Reading, Shut, Sites, TargetNo};
use std::alloc::Global;
use std::marker::Model;

/// It reads for one area. Contracts see whose list it reads, of which sites and area, the front
/// that it has seen, its last reading, and how often it was shut out.
#[derive(Drop)]
pub struct Session {
    entrance: Entrance,
    area: Name,
    /// The targets of the area, in file order.
    targets: Vec<TargetNo>,
    /// The last reading. It has room for an answer at each target.
    reading: Reading,
}

impl Model for Session {
    ghost use Rattle.std.specs.Prelude.{◌≡◌, ◌≤◌, length};
    ghost use Rattle.plum_base.specs.Sites.{AreNumbersOf, targets_of, MOST_TARGETS};
    ghost use Rattle.plum_snap.specs.Sessions.{SessionView};

    ghost Value = { SessionView };

    ghost view = { λ s. record {
      publisher = s.entrance.publisher;
      sites = s.entrance.sites;
      area = s.area;
      seen = s.entrance.seen;
      last = s.reading;
      shut = s.entrance.shut;
    } };

    ghost invariant = { λ s.
        AreNumbersOf s.entrance.sites.targets s.targets.items
        (targets_of s.area s.entrance.sites.targets)
        × (length s.reading.answers ≡ length s.targets.items)
        × (length s.targets.items ≤ MOST_TARGETS) };
}

impl Session {
    /// One for the targets of an area, with room for its answers. It has read nothing.
    pub(crate) fn new(
        alloc: Global,
        sites: &Sites,
        area: Name,
        entrance: Entrance,
    ) -> Result<Session, NoMemory>
        requires { entrance.sites ≡ sites.now }
        ensures { IfOk result (λ session. session ≡ record {
          publisher = entrance.publisher;
          sites = sites.now;
          area = area;
          seen = entrance.seen;
          last = first_reading sites.now area;
          shut = entrance.shut;
        }) }
    {
        let targets = numbers_in(alloc, sites, &area)?;
        let answers = unanswered(alloc, targets.len())?;
        let reading = Reading { front: 0, answers };
        Ok(Session {
            entrance,
            area,
            targets,
            reading,
        })
    }
}

impl Session {
    ghost use Rattle.plum_snap.specs.Lent.{EndsRead};

    /// Reads the published board: how many entries it has, and the prediction at each target of the
    /// area, in file order. Its front begins with all that the session had seen or learned, and the
    /// session has then seen it. It takes no memory and waits for nothing.
    ///
    /// `Shut` where it was not let in, which `shut` counts. Then the last reading is as before.
    pub fn read(&mut self) -> Result<&Reading, Shut>
        ensures* rests { sem 𝓛 (EndsRead self.entry result) }
    {
        if self.look() {
            Ok(&self.reading)
        } else {
            Err(Shut)
        }
    }
}

impl Session {
    /// Whether it was let in, and has read.
    fn look(&mut self) -> bool
        ensures { MatchBool result (HasRead self.old self.new self.new.last)
            (WasShutOut self.old self.new) }
    {
        replace_with(self, (), |session, _| session.after_looking())
    }

    /// The session, once it has looked, and whether it was let in.
    fn after_looking(self) -> (Session, bool)
        ensures { MatchBool result.1 (HasRead self result.0 result.0.last)
            (WasShutOut self result.0) }
    {
        let Session {
            entrance,
            area,
            targets,
            mut reading,
        } = self;
        match entrance.enter() {
            Ok(inside) => {
                let numbers = targets.as_slice();
                answer(inside.board(), numbers, &mut reading.answers);
                reading.front = inside.count();
                let session = Session {
                    entrance: inside.leave(),
                    area,
                    targets,
                    reading,
                };
                (session, true)
            }
            Err(entrance) => {
                let session = Session {
                    entrance,
                    area,
                    targets,
                    reading,
                };
                (session, false)
            }
        }
    }

    /// How often it was shut out. It stands still at 2^64 - 1.
    pub fn shut(&self) -> u64
        ensures { result ≡ self.now.shut }
    {
        self.entrance.shut()
    }

    /// The last reading; before the first, front 0 and every answer none.
    pub fn last(&self) -> &Reading
        ensures { result.now ≡ self.now.last }
    {
        &self.reading
    }

    /// From now on it has seen the longer of its list and the receipt's.
    pub fn learn(&mut self, receipt: Receipt)
        requires { receipt.publisher ≡ self.old.publisher }
        ensures one { (self.new ≡ self.old)
            ⊎ (self.new ≡ record self.old { seen = receipt.entries }) }
        ensures this { IsPrefix self.old.seen self.new.seen }
        ensures that { IsPrefix receipt.entries self.new.seen }
    {
        self.entrance.learn(receipt);
    }

    /// What it has seen.
    pub(crate) fn seen(&self) -> &Receipt
        ensures { result.now ≡ record {
          publisher = self.now.publisher;
          entries = self.now.seen;
        } }
    {
        self.entrance.seen()
    }

    /// What two sessions of one publisher have seen are fronts of one list: one begins the other.
    pub fn sees_one_list(&self, other: &Session)
        requires { other.now.publisher ≡ self.now.publisher }
        ensures { IsPrefix self.now.seen other.now.seen ⊎ IsPrefix other.now.seen self.now.seen }
    {
        self.entrance.seen().are_of_one_list(other.entrance.seen());
    }
}
