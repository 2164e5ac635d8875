//! What of a pyramid stays: its stations in an order of its own, and its squares.

use plum_base::{StationNo, StationSite};
use plum_geo::Square;

/// A station, and its number in the station file.
#[derive(Clone, Copy, Debug)]
pub struct Member {
    pub site: StationSite,
    pub number: StationNo,
}

/// A square that has stations, and which of the members these are: a run. All cells within it stand
/// behind it, up to the one that it skips to. One that skips to the next has none within it: a
/// leaf.
#[derive(Clone, Copy, Debug)]
pub struct Cell {
    pub square: Square,
    pub first: usize,
    pub end: usize,
    pub skip: usize,
}

/// The stations by their numbers, the same along a curve through the leaf squares, so that those of
/// any square are a run, and the squares.
#[derive(Debug, Drop)]
pub struct Layout {
    pub stations: Vec<StationSite>,
    pub members: Vec<Member>,
    pub cells: Vec<Cell>,
}
