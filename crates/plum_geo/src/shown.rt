//! What stations show, and predictions from it by a scan of all stations.

ghost use Rattle.std.specs.Prelude.{◌≡◌, ◌<◌, ◌⊎◌, ℕ, List, [], ◌∷◌, ◌++◌, length};
ghost use Rattle.std.specs.Prelude.{replicate};
ghost use Rattle.std.specs.Prelude.{Option, Some, None, IfSome, IfNone, IfOk, IsTrue};
ghost use Rattle.plum_base.specs.declared.entry.Entry.{Entry};
ghost use Rattle.plum_base.specs.declared.numbers.Tenths.{Tenths};
ghost use Rattle.plum_base.specs.declared.sites.StationSite.{StationSite};
ghost use Rattle.plum_base.specs.Levels.{IsFactor};
ghost use Rattle.plum_base.specs.Sites.{IsPlace, AreStations};
ghost use Rattle.plum_geo.specs.Prediction.{none_or_on_scale, IsOnScale, AreOnScale, IsNear};
ghost use Rattle.plum_geo.specs.Prediction.{corrected, IsAtMost, IsBest, plus_factor};
ghost use Rattle.plum_geo.specs.Prediction.{IsPredictionOver};
ghost use Rattle.plum_geo.specs.Corrected.{IsOnCorrectedScale};
ghost use Rattle.plum_geo.specs.Shown.{value_in, AreShown, shown_after};

use crate::distance::near;
use crate::laws::near_stations_are_those_near;
use plum_base::{Entry, NoMemory, Point, StationSite, TargetSite, Tenths};
use std::alloc::Global;
use std::marker::Model;

/// What each station shows, by its number. Contracts see the list.
#[derive(Debug, Drop)]
pub struct Shown {
    values: Vec<Option<Tenths>>,
}

impl Model for Shown {
    ghost use Rattle.std.specs.Prelude.{List, Option};
    ghost use Rattle.plum_base.specs.declared.numbers.Tenths.{Tenths};
    ghost use Rattle.plum_geo.specs.Prediction.{AreOnScale};

    ghost Value = { List (Option Tenths) };

    ghost view = { λ s. s.values.items };

    ghost invariant = { λ s. AreOnScale s.values.items };
}

impl Shown {
    /// So many stations, of which none shows a value.
    pub fn new(alloc: Global, stations: usize) -> Result<Shown, NoMemory>
        ensures shown { IfOk result (λ shown. AreShown shown stations []) }
        ensures exact { IfOk result (λ shown. shown ≡ replicate stations None) }
    {
        let values = vec![in alloc; None; stations]?;
        Ok(Shown { values })
    }

    /// One entry more: its station shows its value from now on. An entry of a station that is not
    /// there, or whose value is off the scale, changes nothing.
    pub fn apply(&mut self, entry: &Entry)
        ensures shown { (stations : ℕ) (entries : List Entry)
            → AreShown self.old stations entries
            → AreShown self.new stations (entries ++ entry.now ∷ []) }
        ensures exact { self.new ≡ shown_after self.old entry.now }
        ensures count { length self.new ≡ length self.old }
    {
        let station = entry.station.0 as usize;
        if station < self.values.len() && none_or_on_scale(entry.value) {
            self.values[station] = entry.value;
        }
    }

    /// The prediction at a target, over the entries so far.
    pub fn predict(&self, stations: &[StationSite], target: &TargetSite) -> Option<Tenths>
        requires stations { AreStations stations.now }
        requires target_place { IsPlace target.now.at }
        requires target_factor { IsFactor target.now.factor }
        requires count { length self.now ≡ length stations.now }
        ensures { (entries : List Entry) → AreShown self.now (length stations.now) entries
            → IsPredictionOver stations.now entries target.now result }
    {
        predicted(best_at(stations, self.values.as_slice(), target.at), target)
    }
}

/// The least value of the scale, in tenths.
const SCALE_LOW: i16 = -100;

/// The greatest.
const SCALE_HIGH: i16 = 227;

/// Whether a value is none or from -10.0 to 22.7.
pub fn none_or_on_scale(value: Option<Tenths>) -> bool
    ensures value { result ≡ none_or_on_scale value }
    ensures scale { IsTrue result → IfSome value IsOnScale }
{
    match value {
        None => true,
        Some(t) => SCALE_LOW <= t.0 && t.0 <= SCALE_HIGH,
    }
}

/// What a station that shows this value says at a place: the value less its factor. None where it
/// is not near or shows none.
fn said_by(site: &StationSite, shown: Option<Tenths>, place: Point) -> Option<Tenths>
    requires at { IsPlace site.now.at }
    requires factor { IsFactor site.now.factor }
    requires scale { IfSome shown IsOnScale }
    requires place { IsPlace place }
    ensures some { IfSome result (λ t. IsNear site.now.at place × (value : Tenths)
        × (shown ≡ Some value) × (t.0 ≡ corrected site.now value)) }
    ensures none { IfNone result (IsNear site.now.at place → shown ≡ None) }
    ensures range { IfSome result IsOnCorrectedScale }
{
    let value = shown?;
    if near(site.at, place) {
        Some(less(value, site))
    } else {
        None
    }
}

/// A value less the factor of its station.
pub fn less(value: Tenths, site: &StationSite) -> Tenths
    requires scale { IsOnScale value }
    requires factor { IsFactor site.now.factor }
    ensures value { result.0 ≡ corrected site.now value }
    ensures range { IsOnCorrectedScale result }
{
    Tenths(value.0 - site.factor.0)
}

/// The best at a place plus the factor of a target there.
fn plus(best: Tenths, target: &TargetSite) -> Tenths
    requires scale { IsOnCorrectedScale best }
    requires factor { IsFactor target.now.factor }
    ensures { Some result ≡ plus_factor target.now (Some best) }
{
    Tenths(best.0 + target.factor.0)
}

/// The prediction at a target, by the best at its place.
pub fn predicted(best: Option<Tenths>, target: &TargetSite) -> Option<Tenths>
    requires scale { IfSome best IsOnCorrectedScale }
    requires factor { IsFactor target.now.factor }
    ensures value { result ≡ plus_factor target.now best }
    ensures over { (values : List (Option Tenths)) (stations : List StationSite)
        (entries : List Entry) → AreShown values (length stations) entries
        → IsBest stations (value_in values) target.now.at best
        → IsPredictionOver stations entries target.now result }
{
    match best {
        None => None,
        Some(best) => Some(plus(best, target)),
    }
}

/// The greater of what two stations say; none is below each value.
pub fn greater_of(a: Option<Tenths>, b: Option<Tenths>) -> Option<Tenths>
    ensures one { (result ≡ a) ⊎ (result ≡ b) }
    ensures first { IsAtMost a result }
    ensures second { IsAtMost b result }
{
    a.max(b)
}

/// The best at a place: the greatest of what the stations say, which show these values.
fn best_at(stations: &[StationSite], values: &[Option<Tenths>], place: Point) -> Option<Tenths>
    requires stations { AreStations stations.now }
    requires count { length values.now ≡ length stations.now }
    requires scale { AreOnScale values.now }
    requires place { IsPlace place }
    ensures best { IsBest stations.now (value_in values.now) place result }
    ensures range { IfSome result IsOnCorrectedScale }
{
    // For the contract: which stations are near.
    near_stations_are_those_near();
    let mut greatest = None;
    for (n, site) in stations.iter().enumerate() {
        let said = said_by(site, values[n], place);
        greatest = greater_of(greatest, said);
    }
    greatest
}
