//! Fronts that were published.

ghost use Rattle.std.specs.Prelude.{◌≡◌, ◌<◌, ◌⊎◌, length, IfSome};
ghost use mathlib.Core.List.{IsPrefix};
ghost use Rattle.plum_snap.specs.Limits.{limit_of, limit_word};

use crate::front::Front;
use crate::limit::{Marks, SharedLimit, read_limit};
use std::marker::Model;

/// A front of a publisher's list, as what was published at some moment. Contracts see whose list it
/// is, and the entries.
#[derive(Drop)]
pub struct Receipt {
    front: Front,
    /// The limit has come past the front.
    marks: Marks,
}

impl Model for Receipt {
    ghost use Rattle.std.specs.Prelude.{◌<◌, length};
    ghost use Rattle.plum_snap.specs.Fronts.{ReceiptView};
    ghost use Rattle.plum_snap.specs.Limits.{limit_of};

    ghost Value = { ReceiptView };

    ghost view = { λ r. record {
      publisher = record { list = r.front.list; limit = r.marks.book };
      entries = r.front.entries;
    } };

    ghost invariant = { λ r. length r.front.entries < limit_of r.marks.log };
}

impl Receipt {
    /// That of a front which is shorter than the limit.
    pub(crate) fn new(front: Front, marks: Marks) -> Receipt
        requires { length front.entries < limit_of marks.log }
        ensures { result ≡ record {
          publisher = record { list = front.list; limit = marks.book };
          entries = front.entries;
        } }
    {
        Receipt { front, marks }
    }

    /// How many entries it has.
    pub fn count(&self) -> u64
        ensures { result ≡ length self.now.entries }
    {
        self.front.count()
    }

    /// The front that it is of.
    pub(crate) fn front(&self) -> &Front
        ensures { result.now ≡ record {
          list = self.now.publisher.list;
          entries = self.now.entries;
        } }
    {
        &self.front
    }

    /// What tells that it was published.
    pub(crate) fn marks(&self) -> &Marks
        ensures book { result.now.book ≡ self.now.publisher.limit }
        ensures limit { length self.now.entries < limit_of result.now.log }
    {
        &self.marks
    }

    /// The same receipt.
    pub(crate) fn again(&self) -> Receipt
        ensures { result ≡ self.now }
    {
        Receipt {
            front: self.front.again(),
            marks: self.marks.again(),
        }
    }

    /// Of two fronts of one list, one begins the other.
    pub fn are_of_one_list(&self, other: &Receipt)
        requires { other.now.publisher ≡ self.now.publisher }
        ensures { IsPrefix self.now.entries other.now.entries
            ⊎ IsPrefix other.now.entries self.now.entries }
    {
        self.front.are_of_one_list(&other.front);
    }

    /// The receipt of a front of the same list, where it is published and no shorter: this one
    /// begins it.
    pub(crate) fn up_to(&self, front: &Front, limit: &SharedLimit) -> Option<Receipt>
        requires list { front.now.list ≡ self.now.publisher.list }
        requires limit { limit.now ≡ limit_word self.now.publisher.limit }
        ensures { IfSome result (λ r. (r ≡ record {
          publisher = self.now.publisher;
          entries = front.now.entries;
        }) × IsPrefix self.now.entries front.now.entries) }
    {
        self.front.are_of_one_list(front);
        let (limit, marks) = read_limit(limit, &self.marks);
        if front.count() < self.count() || limit <= front.count() {
            None
        } else {
            Some(Receipt::new(front.again(), marks))
        }
    }

    /// The longer of two fronts of one list, which the other begins.
    pub(crate) fn longer(self, other: Receipt) -> Receipt
        requires { other.publisher ≡ self.publisher }
        ensures one { (result ≡ self) ⊎ (result ≡ other) }
        ensures this { IsPrefix self.entries result.entries }
        ensures that { IsPrefix other.entries result.entries }
    {
        self.are_of_one_list(&other);
        if self.count() < other.count() {
            other
        } else {
            self
        }
    }
}
