//! The publisher: it extends the list, and shows fronts of it.

ghost use Rattle.std.specs.Prelude.{◌≡◌, ◌+◌, ◌<◌, ◌++◌, ◌∷◌, [], length, drop, true, false};
ghost use Rattle.std.specs.Prelude.{IsErr, OnOk, OnErr};
ghost use mathlib.Core.List.{IsPrefix};
ghost use Rattle.plum_snap.specs.Fronts.{MOST_ENTRIES, ShowsFront, receipt_of};
ghost use Rattle.plum_snap.specs.History.{head_of};
ghost use Rattle.plum_snap.specs.Snapshots.{IsRight};

use crate::ends::{Ink, add, publish};
use crate::front::Front;
use crate::history::{Head, extend};
use crate::limit::Limit;
use crate::receipt::Receipt;
use crate::session::Session;
use crate::snapshot::Addition;
use core::mem::replace_with;
use plum_base::{Entry, NoMemory};
use plum_board::entries_add_up;
use std::marker::Model;
use std::sync::Wait;

/// It appends entries to its list, and publishes them. It is not `Drop`: end it by `end`.
///
/// Contracts see which publisher it is, what it has appended and what of it is published.
pub struct Publisher {
    head: Head,
    /// All that was appended.
    front: Front,
    /// Fronts that are shorter are published.
    limit: Limit,
    writer: Ink,
    /// Whether an append was refused.
    closed: bool,
}

impl Model for Publisher {
    ghost use Rattle.std.specs.Prelude.{◌≡◌, ◌+◌, length};
    ghost use Rattle.plum_snap.specs.History.{head_of};
    ghost use Rattle.plum_snap.specs.Publisher.{PublisherView};
    ghost use Rattle.plum_snap.specs.Rule.{next_of};
    ghost use Rattle.plum_snap.specs.Snapshots.{Grows};

    ghost Value = { PublisherView };

    ghost view = { λ p. record {
      publisher = record { list = p.front.list; limit = p.limit.book };
      appended = p.front.entries;
      published = p.writer.desk.shown.value.front.entries;
      closed = p.closed;
    } };

    ghost invariant = { λ p. (p.head ≡ head_of p.front.list)
        × Grows p.writer.desk.shown.value (next_of p.writer)
        × ((next_of p.writer).front ≡ p.front)
        × (p.limit.limit ≡ length p.writer.desk.shown.value.front.entries + 1) };
}

impl Publisher {
    /// One that has appended and published what the front has.
    pub(crate) fn new(head: Head, front: Front, limit: Limit, writer: Ink) -> Publisher
        requires head { head ≡ head_of front.list }
        requires right { IsRight writer.desk.shown.value }
        requires front { writer.desk.shown.value.front ≡ front }
        requires none { drop writer.behind writer.log.items ≡ [] }
        requires empty { front.entries ≡ [] }
        requires limit { limit.limit ≡ 1 }
        ensures { result ≡ record {
          publisher = record { list = front.list; limit = limit.book };
          appended = [];
          published = [];
          closed = false;
        } }
    {
        Publisher {
            head,
            front,
            limit,
            writer,
            closed: false,
        }
    }

    /// Appends an entry. After a refusal each later append is refused; what was appended before can
    /// still be published.
    pub fn append(&mut self, entry: Entry) -> Result<(), NoMemory>
        requires room { length self.old.appended < MOST_ENTRIES }
        ensures ok { OnOk result (self.new ≡ record self.old {
          appended = self.old.appended ++ entry ∷ [];
        }) }
        ensures err { OnErr result (self.new ≡ record self.old { closed = true }) }
        ensures closed { self.old.closed ≡ true → IsErr result }
    {
        if self.closed {
            return Err(NoMemory);
        }
        // Open again once all was done.
        self.closed = true;
        let front = extend(&self.head, &self.front, &entry).ok_or(NoMemory)?;
        let addition = Addition {
            entry,
            front: front.again(),
        };
        entries_add_up();
        add(&mut self.writer, addition)?;
        self.front = front;
        self.closed = false;
        Ok(())
    }

    /// Publishes all that was appended.
    pub fn publish<R: Wait>(&mut self, rt: &R)
        ensures { self.new ≡ record self.old { published = self.old.appended } }
    {
        // First the limit: what a reader finds is then below it.
        self.limit.raise(self.front.count() + 1);
        replace_with(&mut self.writer, (), |writer, _| (publish(rt, writer), ()));
    }

    /// How many entries were appended and are not published.
    pub fn pending(&self) -> u64
        ensures front { IsPrefix self.now.published self.now.appended }
        ensures count { length self.now.published + result ≡ length self.now.appended }
    {
        self.front.count() - self.writer.published().front.count()
    }

    /// A receipt of what is published.
    pub fn receipt(&mut self) -> Receipt
        ensures receipt { result ≡ receipt_of self.old.publisher self.old.published }
        ensures same { self.new ≡ self.old }
    {
        Receipt::new(self.writer.published().front.again(), self.limit.marks())
    }

    /// Each receipt of it is of a front of what is published.
    pub fn shows_receipt(&mut self, receipt: &Receipt)
        requires { receipt.now.publisher ≡ self.old.publisher }
        ensures { ShowsFront self.old.published receipt.now.entries self.old self.new }
    {
        self.limit.covers(receipt.marks());
        receipt
            .front()
            .are_of_one_list(&self.writer.published().front);
    }

    /// A session has seen no more than is published: a front of it.
    pub fn shows_what_was_seen(&mut self, session: &Session)
        requires { session.now.publisher ≡ self.old.publisher }
        ensures { ShowsFront self.old.published session.now.seen self.old self.new }
    {
        self.shows_receipt(session.seen());
    }

    /// Uses up the publisher, with what is pending. Its sessions are shut out from then on.
    pub fn end<R: Wait>(self, rt: &R) {
        let Publisher {
            head: _head,
            front: _front,
            limit: _limit,
            writer,
            closed: _,
        } = self;
        writer.take(rt);
    }
}
