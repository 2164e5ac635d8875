//! The laws of the stations near a place, and of what they show.

ghost use Rattle.plum_geo.specs.Prediction.{FindsNear};
ghost use Rattle.plum_geo.specs.Shown.{ShowsOneMore};

/// Which stations the scan of a whole list finds near a place.
pub fn near_stations_are_those_near()
    ensures { FindsNear }
{}

/// What stations show after an entry more.
pub fn entries_are_shown_in_turn()
    ensures { ShowsOneMore }
{}
