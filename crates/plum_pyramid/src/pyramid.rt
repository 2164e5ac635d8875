//! The pyramid.

ghost use Rattle.std.specs.Prelude.{◌≡◌, ◌<◌, List, [], ◌∷◌, ◌++◌, length, true, IfOk, IfSome};
ghost use Rattle.plum_base.specs.declared.sites.StationSite.{StationSite};
ghost use Rattle.plum_base.specs.Sites.{IsPlace};
ghost use Rattle.plum_geo.specs.Prediction.{IsOnScale, IsBest};
ghost use Rattle.plum_geo.specs.Corrected.{IsOnCorrectedScale};
ghost use Rattle.plum_geo.specs.Shown.{value_in};
ghost use Rattle.plum_pyramid.specs.Pyramid.{Setting, StandsFor, last_set, new_pyramid};
ghost use Rattle.plum_pyramid.specs.Pyramid.{pyramid_after};

use crate::layout::Layout;
use crate::planting::layout_of;
use crate::renewing::renew;
use crate::searching::best_at;
use plum_base::{NoMemory, Point, Sites, StationNo, Tenths};
use plum_geo::near_stations_are_those_near;
use std::alloc::Global;
use std::marker::Model;

/// The stations, the value of each, and the maxima of the squares that have stations. Contracts see
/// the stations and the values, by number.
#[derive(Debug, Drop)]
pub struct Pyramid {
    layout: Layout,
    values: Vec<Option<Tenths>>,
    /// The greatest value less factor of each cell's stations.
    maxima: Vec<Option<Tenths>>,
}

impl Model for Pyramid {
    ghost use Rattle.plum_pyramid.specs.Pyramid.{PyramidView};
    ghost use Rattle.plum_pyramid.specs.Cells.{HasValues, AreMaxima};

    ghost Value = { PyramidView };

    ghost view = { λ p. record { stations = p.layout.stations.items; values = p.values.items } };

    ghost invariant = { λ p. HasValues p.layout p.values.items
        × AreMaxima p.layout p.values.items p.maxima.items };
}

impl Pyramid {
    /// The pyramid of these stations; none has a value.
    pub fn new(alloc: Global, sites: &Sites) -> Result<Pyramid, NoMemory>
        ensures stands { IfOk result (λ pyramid. StandsFor pyramid sites.now.stations []) }
        ensures exact { IfOk result (λ pyramid. pyramid ≡ new_pyramid sites.now.stations) }
    {
        let layout = layout_of(alloc, sites.stations())?;
        let values = vec![in alloc; None; layout.stations.len()]?;
        let maxima = vec![in alloc; None; layout.cells.len()]?;
        Ok(Pyramid {
            layout,
            values,
            maxima,
        })
    }

    /// Sets the value of one station, or that it has none. It takes no memory.
    pub fn set(&mut self, station: StationNo, value: Option<Tenths>)
        requires exists { station.0 < length self.old.stations }
        requires scale { IfSome value IsOnScale }
        ensures stands { (stations : List StationSite) (settings : List Setting)
            → StandsFor self.old stations settings
            → StandsFor self.new stations
            (settings ++ record { station = station; value = value } ∷ []) }
        ensures exact { self.new ≡ pyramid_after self.old
            (record { station = station; value = value }) }
    {
        let number = station.0 as usize;
        if is_same(self.values[number], value) {
            // Most of a station's values are the one that it has.
            return;
        }
        self.values[number] = value;
        renew(
            &self.layout,
            self.values.as_slice(),
            self.maxima.as_mut_slice(),
            station,
            0,
        );
    }

    /// The greatest value less factor of the near stations that report. It takes no memory.
    pub fn best(&self, at: Point) -> Option<Tenths>
        requires { IsPlace at }
        ensures best { (stations : List StationSite) (settings : List Setting)
            → StandsFor self.now stations settings
            → IsBest stations (last_set settings) at result }
        ensures exact { IsBest self.now.stations (value_in self.now.values) at result }
        ensures range { IfSome result IsOnCorrectedScale }
    {
        // For the contract: which stations are near.
        near_stations_are_those_near();
        best_at(
            &self.layout,
            self.values.as_slice(),
            self.maxima.as_slice(),
            at,
        )
    }
}

/// Whether two values are the same.
fn is_same(a: Option<Tenths>, b: Option<Tenths>) -> bool
    ensures { result ≡ true → a ≡ b }
{
    a == b
}
