//! Numbers that name or measure something.

ghost use Rattle.std.specs.Prelude.{◌↔◌, IsTrue};
ghost use Rattle.plum_base.specs.Levels.{IsFactor};
ghost use Rattle.plum_base.specs.Sites.{IsPlace};

/// A station, by its position in the station file, from 0.
#[derive(Clone, Copy, Debug, PartialEq, Eq)]
pub struct StationNo(pub u16);

/// A target, by its position in the target file, from 0.
#[derive(Clone, Copy, Debug, PartialEq, Eq)]
pub struct TargetNo(pub u16);

/// An area, in the order of first appearance in the target file, from 0.
#[derive(Clone, Copy, Debug, PartialEq, Eq)]
pub struct AreaNo(pub u16);

/// A station lane, from 0.
#[derive(Clone, Copy, Debug, PartialEq, Eq)]
pub struct LaneNo(pub u16);

/// The greatest site factor, and the greatest base of a threshold table, in tenths. The least is
/// its negative.
pub const GREATEST_FACTOR: i16 = 100;

/// An intensity or a site factor, in tenths.
#[derive(Clone, Copy, Debug, PartialEq, Eq, PartialOrd, Ord)]
pub struct Tenths(pub i16);

impl Tenths {
    /// Whether a site factor or the base of a threshold table may be this: -100 to 100 tenths.
    pub fn is_factor(self) -> bool
        ensures { IsTrue result ↔ IsFactor self }
    {
        -GREATEST_FACTOR <= self.0 && self.0 <= GREATEST_FACTOR
    }
}

/// What orders a station's packets: by boot, and then by number.
#[derive(Clone, Copy, Debug, PartialEq, Eq, PartialOrd, Ord)]
pub struct Key {
    pub boot: u16,
    pub number: u32,
}

/// The last metre of the grid, each way.
pub const GRID_END: i32 = 4_194_303;

/// A place on the flat grid, in metres.
#[derive(Clone, Copy, Debug, PartialEq, Eq)]
pub struct Point {
    pub x: i32,
    pub y: i32,
}

impl Point {
    /// Whether the place is on the grid: from 0 to `GRID_END`, each way.
    pub fn is_on_grid(self) -> bool
        ensures { IsTrue result ↔ IsPlace self }
    {
        (0..=GRID_END).contains(&self.x) && (0..=GRID_END).contains(&self.y)
    }
}
