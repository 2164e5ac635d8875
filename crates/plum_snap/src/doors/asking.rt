//! Asking for a place of a reader.

ghost use Rattle.std.specs.Prelude.{◌≡◌, ◌≤◌, true, MatchOption};
ghost use Rattle.std.specs.Arc.{arc_value};
ghost use Rattle.left_right.specs.Sides as sides;
ghost use Rattle.plum_snap.specs.Doors.{Rose};
ghost use Rattle.plum_snap.specs.Limits.{limit_word};
ghost use Rattle.plum_snap.specs.Rule.{IsAsBefore};

use super::Entrance;
use crate::ends::{Ink, reader};
use crate::limit::SharedLimit;
use crate::receipt::Receipt;
use std::marker::Model;
use std::sync::Arc;

/// How often a place of a reader was refused. Contracts see the count.
#[derive(Drop)]
pub struct Doors {
    /// It stands still at its end.
    refused: u64,
}

impl Model for Doors {
    ghost use Rattle.std.specs.Prelude.{ℕ};

    ghost Value = { ℕ };

    ghost view = { λ d. d.refused };
}

impl Doors {
    /// Doors at which no place was refused yet.
    pub fn new() -> Doors
        ensures { result ≡ 0 }
    {
        Doors { refused: 0 }
    }

    /// How often a place was refused. It stands still at 2^64 - 1.
    pub fn refused(&self) -> u64
        ensures { result ≡ self.now }
    {
        self.refused
    }

    /// A place at the board of a writer. None where it is refused, which is counted.
    pub(crate) fn entrance(
        &mut self,
        writer: &mut Ink,
        limit: Arc<SharedLimit>,
        front: &Receipt,
    ) -> Option<Entrance>
        requires limit { arc_value limit ≡ limit_word front.now.publisher.limit }
        requires known { (sides.view writer.old.desk.place).known ≡ true }
        requires one { (sides.view writer.old.desk.place).seen.front.list
            ≡ front.now.publisher.list }
        ensures entrance { MatchOption result
            (Rose self.old self.new)
            (λ e. (e ≡ record {
              publisher = front.now.publisher;
              sites = (sides.view writer.old.desk.place).seen.board.sites;
              seen = front.now.entries;
              shut = 0;
            }) × (self.new ≡ self.old)) }
        ensures count { self.old ≤ self.new }
        ensures place { sides.view writer.new.desk.place ≡ sides.view writer.old.desk.place }
        ensures same { IsAsBefore writer.old writer.new }
    {
        match reader(writer) {
            Ok(reader) => Some(Entrance::new(reader, limit, front.again())),
            Err(_) => {
                self.refused = self.refused.saturating_add(1);
                None
            }
        }
    }
}
