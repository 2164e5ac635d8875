//! Squares of the grid, and how one lies to the disc of PLUM's radius round a place.

ghost use Rattle.std.specs.Prelude.{◌≡◌, ◌↔◌, ◌≤◌, ℤ, ◌-ℤ◌, nat_abs, IsTrue};
ghost use Rattle.plum_base.specs.declared.numbers.Point.{Point};
ghost use Rattle.plum_base.specs.Sites.{IsCoordinate, IsPlace};
ghost use Rattle.plum_geo.specs.Prediction.{distance_squared};
ghost use Rattle.plum_geo.specs.Square.{IsStretch, IsAlong, IsSquare, IsWithin, LiesAs};
ghost use Rattle.plum_geo.specs.declared.square.Place.{Place};

use crate::distance::near;
use plum_base::Point;

/// A square of the grid: it covers `x` to `x + side - 1` and `y` to `y + side - 1`, in metres.
#[derive(Clone, Copy, Debug, PartialEq, Eq)]
pub struct Square {
    pub x: i32,
    pub y: i32,
    pub side: i32,
}

/// How a square lies to a disc: each of its places is in it, or none is, or some are.
#[derive(Clone, Copy, Debug, PartialEq, Eq)]
pub enum Place {
    Inside,
    Outside,
    Cut,
}

impl Square {
    /// Whether the place lies in the square.
    pub fn holds(self, at: Point) -> bool
        requires { IsSquare self }
        ensures { IsTrue result ↔ IsWithin at self }
    {
        is_along(at.x, self.x, self.side) && is_along(at.y, self.y, self.side)
    }
}

/// Whether it is one of so many metres from the first of them on.
fn is_along(z: i32, from: i32, side: i32) -> bool
    requires { IsStretch from side }
    ensures { IsTrue result ↔ IsAlong z from side }
{
    from <= z && z < from + side
}

/// The coordinate that is nearest to another, of so many from the first of them on.
fn nearest_along(from: i32, side: i32, to: i32) -> i32
    requires stretch { IsStretch from side }
    requires on_grid { IsCoordinate to }
    ensures along { IsAlong result from side }
    ensures nearest { (z : ℤ) → IsAlong z from side → nat_abs (result -ℤ to) ≤ nat_abs (z -ℤ to) }
{
    to.clamp(from, from + (side - 1))
}

/// The coordinate that is farthest from another, of so many from the first of them on.
fn farthest_along(from: i32, side: i32, to: i32) -> i32
    requires stretch { IsStretch from side }
    requires on_grid { IsCoordinate to }
    ensures along { IsAlong result from side }
    ensures farthest { (z : ℤ) → IsAlong z from side → nat_abs (z -ℤ to) ≤ nat_abs (result -ℤ to) }
{
    let last = from + (side - 1);
    if to - from < last - to { last } else { from }
}

/// The place of a square that is nearest to another.
fn nearest(square: Square, to: Point) -> Point
    requires square { IsSquare square }
    requires on_grid { IsPlace to }
    ensures within { IsWithin result square }
    ensures nearest { (p : Point) → IsWithin p square
        → distance_squared result to ≤ distance_squared p to }
{
    Point {
        x: nearest_along(square.x, square.side, to.x),
        y: nearest_along(square.y, square.side, to.y),
    }
}

/// The place of a square that is farthest from another: one of its corners.
fn farthest(square: Square, to: Point) -> Point
    requires square { IsSquare square }
    requires on_grid { IsPlace to }
    ensures within { IsWithin result square }
    ensures farthest { (p : Point) → IsWithin p square
        → distance_squared p to ≤ distance_squared result to }
{
    Point {
        x: farthest_along(square.x, square.side, to.x),
        y: farthest_along(square.y, square.side, to.y),
    }
}

/// How the square lies to the disc of PLUM's radius round the centre, its boundary included.
pub fn square_vs_disc(square: Square, centre: Point) -> Place
    requires square { IsSquare square }
    requires centre { IsPlace centre }
    ensures sound { LiesAs square centre result }
    ensures exact { (place : Place) → LiesAs square centre place → place ≡ result }
{
    if near(farthest(square, centre), centre) {
        Place::Inside
    } else if near(nearest(square, centre), centre) {
        Place::Cut
    } else {
        Place::Outside
    }
}
