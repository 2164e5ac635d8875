//! Fronts of the one list of a publisher, published or not.

ghost use Rattle.std.specs.Prelude.{◌≡◌, ◌≤◌, ◌⊎◌, length};
ghost use mathlib.Core.List.{IsPrefix};
ghost use Rattle.plum_snap.specs.Fronts.{MOST_ENTRIES};

use crate::history::Reached;
use std::marker::Model;

/// A front of a list. It has no entries, but the proof that the list has reached them. Contracts
/// see which list it is, and the entries, of which there are 2^33 at most.
#[derive(Drop)]
pub struct Front {
    pub(crate) count: u64,
    pub(crate) reached: Reached,
}

impl Model for Front {
    ghost use Rattle.std.specs.Prelude.{◌≡◌, ◌≤◌, length};
    ghost use Rattle.plum_snap.specs.Fronts.{FrontView, MOST_ENTRIES};

    ghost Value = { FrontView };

    ghost view = { λ f. record { list = f.reached.book; entries = f.reached.log } };

    ghost invariant = { λ f. (f.count ≡ length f.reached.log) × (f.count ≤ MOST_ENTRIES) };
}

impl Front {
    /// How many entries it has.
    pub(crate) fn count(&self) -> u64
        ensures count { result ≡ length self.now.entries }
        ensures few { result ≤ MOST_ENTRIES }
    {
        self.count
    }

    /// The same front.
    pub(crate) fn again(&self) -> Front
        ensures { result ≡ self.now }
    {
        Front {
            count: self.count,
            reached: self.reached.again(),
        }
    }

    /// Of two fronts of one list, one begins the other.
    pub(crate) fn are_of_one_list(&self, other: &Front)
        requires { other.now.list ≡ self.now.list }
        ensures { IsPrefix self.now.entries other.now.entries
            ⊎ IsPrefix other.now.entries self.now.entries }
    {
        let mut both = self.reached.again();
        both.learn(&other.reached);
    }
}
