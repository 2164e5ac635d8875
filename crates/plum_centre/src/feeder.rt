//! The feeder: it gathers what the lanes sent, notes it, and publishes it.

ghost use Rattle.std.specs.Prelude.{◌≡◌, ◌∷◌, ◌++◌, ◌<◌, ◌⊎◌, [], true, false, length};
ghost use Rattle.std.specs.Prelude.{IsErr, OnOk, OnErr, MatchResult};
ghost use Rattle.plum_lanes.specs.Gathering.{gathered, settled_of, IsGather, KeepsOpening};
ghost use Rattle.plum_lanes.specs.Opening.{Opening};
ghost use Rattle.plum_lanes.specs.Rounds.{AreWhole, ClosesRound};
ghost use Rattle.plum_base.specs.Note.{note_of};
ghost use Rattle.plum_snap.specs.Fronts.{MOST_ENTRIES, ShowsFront, receipt_of};
ghost use Rattle.plum_centre.specs.Feeder.{new_feeder, IsPublishedGathered};
ghost use Rattle.plum_centre.specs.Turns.{Feeds, IsRefused, GoesOn};
ghost use Rattle.plum_centre.specs.Rounds.{StayWhole};

use crate::fed::Fed;
use plum_base::{Entry, NoMemory, Notes, note_of};
use plum_lanes::{Gather, Lane, close_round};
use plum_snap::{Publisher, Receipt, Session};
use std::marker::Model;
use std::sync::Wait;

/// So many pending entries are published, whether or not the queue is empty.
pub const BATCH: u64 = 64;

/// It has the gatherer of the lanes and the publisher of the board. It is not `Drop`: end it by
/// `end`.
///
/// Contracts see its gatherer, what it appended and published, its notes, and whether it was
/// refused memory.
pub struct Feeder {
    gather: Gather,
    publisher: Publisher,
    /// Those of the entries gathered since they were forgotten last.
    notes: Notes,
    /// Whether a turn was refused memory.
    refused: bool,
}

impl Model for Feeder {
    ghost use Rattle.plum_lanes.specs.Gathering.{gathered};
    ghost use Rattle.plum_centre.specs.Feeder.{FeederView, IsGatheredFront};

    ghost Value = { FeederView };

    ghost view = { λ f. record {
      gather = f.gather;
      publisher = f.publisher.publisher;
      appended = f.publisher.appended;
      published = f.publisher.published;
      notes = f.notes;
      refused = f.refused;
    } };

    ghost invariant = { λ f. IsGatheredFront f.publisher.appended (gathered f.gather) f.refused };
}

/// An entry becomes pending, and is noted.
fn add(publisher: &mut Publisher, notes: &mut Notes, entry: Entry) -> Result<(), NoMemory>
    requires room { length publisher.old.appended < MOST_ENTRIES }
    ensures ok { OnOk result ((publisher.new.appended ≡ publisher.old.appended ++ entry ∷ [])
        × (notes.new ≡ notes.old ++ note_of entry ∷ [])) }
    ensures appended { (publisher.new.appended ≡ publisher.old.appended)
        ⊎ (publisher.new.appended ≡ publisher.old.appended ++ entry ∷ []) }
    ensures published { publisher.new.published ≡ publisher.old.published }
    ensures publisher { publisher.new.publisher ≡ publisher.old.publisher }
    ensures err { OnErr result (notes.new ≡ notes.old) }
{
    let note = note_of(&entry);
    publisher.append(entry)?;
    notes.push(note)
}

impl Feeder {
    /// One that has gathered nothing.
    pub(crate) fn new(gather: Gather, publisher: Publisher, notes: Notes) -> Feeder
        requires gathered { gathered gather ≡ [] }
        requires appended { publisher.appended ≡ [] }
        requires published { publisher.published ≡ [] }
        requires notes { notes ≡ [] }
        ensures { result ≡ new_feeder gather publisher.publisher }
    {
        Feeder {
            gather,
            publisher,
            notes,
            refused: false,
        }
    }

    /// A turn: where 64 entries are pending, it publishes them. Otherwise it takes an entry from
    /// the queue, which is then pending and noted; where the queue was empty, it publishes what is
    /// pending, if anything is.
    ///
    /// After a refusal each later turn is refused, and what is published stays.
    pub fn turn<R: Wait>(&mut self, rt: &R) -> Result<Fed, NoMemory>
        requires gather { (opening : Opening) × IsGather opening self.old.gather }
        requires few { length (gathered self.old.gather) < MOST_ENTRIES }
        ensures feeds { MatchResult result (λ fed. Feeds self.old fed self.new)
            (λ _. IsRefused self.old self.new) }
        ensures gather { KeepsOpening self.old.gather self.new.gather }
        ensures goes_on { GoesOn self.old self.new }
        ensures settled { settled_of self.new.gather ≡ settled_of self.old.gather }
        ensures refused { self.old.refused ≡ true → IsErr result × (self.new ≡ self.old) }
        ensures published_gathered { IsPublishedGathered self.new }
    {
        let pending = self.publisher.pending();
        if self.refused {
            return Err(NoMemory);
        }
        if pending >= BATCH {
            self.publisher.publish(rt);
            return Ok(Fed::Published);
        }
        match self.gather.next(rt) {
            Some(entry) => {
                // Open again once all was done.
                self.refused = true;
                add(&mut self.publisher, &mut self.notes, entry)?;
                self.refused = false;
                Ok(Fed::One)
            }
            None if pending == 0 => Ok(Fed::Empty),
            None => {
                self.publisher.publish(rt);
                Ok(Fed::Published)
            }
        }
    }

    /// The notes of what was gathered since they were forgotten last, in the order of the journal.
    pub fn notes(&self) -> &Notes
        ensures { result.now ≡ self.now.notes }
    {
        &self.notes
    }

    /// Empties the notes, and keeps their room.
    pub fn forget(&mut self)
        ensures { self.new ≡ record self.old { notes = [] } }
    {
        self.notes.clear();
    }

    /// A receipt of what is published.
    pub fn receipt(&mut self) -> Receipt
        ensures receipt { result ≡ receipt_of self.old.publisher self.old.published }
        ensures same { self.new ≡ self.old }
        ensures published_gathered { IsPublishedGathered self.old }
    {
        // For the contract: what is published begins what was appended.
        let _ = self.publisher.pending();
        self.publisher.receipt()
    }

    /// A session has seen no more than is published: a front of it.
    pub fn shows_what_was_seen(&mut self, session: &Session)
        requires { session.now.publisher ≡ self.old.publisher }
        ensures { ShowsFront self.old.published session.now.seen self.old self.new }
    {
        self.publisher.shows_what_was_seen(session);
    }

    /// Closes the round of the lanes, with what they sent up to now.
    pub(crate) fn settle(&mut self, lanes: &mut [Lane])
        requires { (opening : Opening) × AreWhole opening lanes.old self.old.gather }
        ensures stay { StayWhole lanes.old self.old lanes.new self.new }
        ensures same { self.new ≡ record self.old { gather = self.new.gather } }
        ensures closes { ClosesRound lanes.old self.old.gather lanes.new self.new.gather }
    {
        close_round(lanes, &mut self.gather).unwrap();
    }

    /// Uses up the feeder, with its publisher. Its sessions are shut out from then on.
    pub fn end<R: Wait>(self, rt: &R) {
        let Feeder {
            gather: _gather,
            publisher,
            notes: _notes,
            refused: _,
        } = self;
        publisher.end(rt);
    }
}
