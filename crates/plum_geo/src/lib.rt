//! Distances on the grid, squares and discs, what each station shows, and the predictions from it.
//!
//! It promises the test of nearness, how a square lies to a disc, the table of what the stations
//! show after whatever entries were applied to it, the prediction at a target by a scan of all
//! stations, and the laws of the stations that a scan finds near and of an entry more. It must not
//! know how values come about, nor who keeps entries.
#![tactic(auto)]

mod distance;
mod laws;
mod shown;
mod square;

pub use distance::near;
pub use laws::{entries_are_shown_in_turn, near_stations_are_those_near};
pub use shown::{Shown, greater_of, less, none_or_on_scale, predicted};
pub use square::{Place, Square, square_vs_disc};
