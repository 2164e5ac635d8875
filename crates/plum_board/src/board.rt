//! The board.

ghost use Rattle.std.specs.Prelude.{◌≡◌, ◌<◌, List, [], ◌∷◌, ◌++◌, length, slice_get, IfOk};
ghost use Rattle.std.specs.Prelude.{IsSomeAnd};
ghost use Rattle.plum_base.specs.declared.entry.Entry.{Entry};
ghost use Rattle.plum_base.specs.Sites.{SitesView};
ghost use Rattle.plum_geo.specs.Prediction.{IsPredictionOver};
ghost use Rattle.plum_geo.specs.Shown.{shown_after};
ghost use Rattle.plum_board.specs.Board.{StandsFor, board_after, new_board};

use plum_base::{Entry, NoMemory, Sites, TargetNo, Tenths};
use plum_geo::{entries_are_shown_in_turn, none_or_on_scale, predicted};
use plum_pyramid::Pyramid;
use std::alloc::Global;
use std::marker::Model;

/// What each station shows after the entries that were applied, and how many these are.
#[derive(Drop)]
pub struct Board {
    sites: Sites,
    /// The values that the stations show.
    pyramid: Pyramid,
    /// It stands still at its end.
    count: u64,
}

impl Model for Board {
    ghost use Rattle.std.specs.Prelude.{◌≡◌, length};
    ghost use Rattle.plum_board.specs.Board.{BoardView};

    ghost Value = { BoardView };

    ghost view = { λ b. record {
      sites = b.sites;
      values = b.pyramid.values;
      count = b.count;
    } };

    ghost invariant = { λ b. (b.pyramid.stations ≡ b.sites.stations)
        × (length b.pyramid.values ≡ length b.sites.stations) };
}

impl Board {
    /// The board of the empty history.
    pub fn new(alloc: Global, sites: &Sites) -> Result<Board, NoMemory>
        ensures stands { IfOk result (λ board. StandsFor board sites.now []) }
        ensures exact { IfOk result (λ board. board ≡ new_board sites.now) }
    {
        Ok(Board {
            sites: sites.copy(alloc)?,
            pyramid: Pyramid::new(alloc, sites)?,
            count: 0,
        })
    }

    /// One entry more: its station shows its value from now on. An entry of a station that is not
    /// listed, or whose value is off the scale, changes the count alone.
    pub fn apply(&mut self, entry: &Entry)
        ensures exact { self.new ≡ board_after self.old entry.now }
        ensures sites { self.new.sites ≡ self.old.sites }
        ensures stands { (sites : SitesView) (entries : List Entry)
            → StandsFor self.old sites entries
            → StandsFor self.new sites (entries ++ entry.now ∷ []) }
    {
        // For the contract: what stations show after an entry more.
        entries_are_shown_in_turn();
        show(&mut self.pyramid, self.sites.stations().len(), entry);
        self.count = self.count.saturating_add(1);
    }

    /// The prediction at a target, over the entries that were applied.
    pub fn predict(&self, target: TargetNo) -> Option<Tenths>
        requires exists { target.0 < length self.now.sites.targets }
        ensures { (sites : SitesView) (entries : List Entry) → StandsFor self.now sites entries
            → IsSomeAnd (slice_get sites.targets target.0)
            (λ t. IsPredictionOver sites.stations entries t result) }
    {
        let position = target.0 as usize;
        let target = &self.sites.targets()[position];
        predicted(self.pyramid.best(target.at), target)
    }

    /// How many entries were applied, or 2^64 - 1.
    pub fn count(&self) -> u64
        ensures { result ≡ self.now.count }
    {
        self.count
    }
}

/// Sets the station of an entry to its value, where the station is one of so many, and the value is
/// none or on the scale.
fn show(pyramid: &mut Pyramid, stations: usize, entry: &Entry)
    requires stations { stations ≡ length pyramid.old.stations }
    requires count { length pyramid.old.values ≡ stations }
    ensures values { pyramid.new.values ≡ shown_after pyramid.old.values entry.now }
    ensures stations { pyramid.new.stations ≡ pyramid.old.stations }
{
    if (entry.station.0 as usize) < stations && none_or_on_scale(entry.value) {
        pyramid.set(entry.station, entry.value);
    }
}
