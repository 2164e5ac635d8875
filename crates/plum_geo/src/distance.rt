//! Which places are near each other.

ghost use Rattle.std.specs.Prelude.{◌≡◌, ◌↔◌, ◌^◌, ◌≤◌, IsTrue, nat_abs, ◌-ℤ◌};
ghost use Rattle.plum_base.specs.Sites.{IsCoordinate, IsPlace};
ghost use Rattle.plum_geo.specs.Prediction.{IsNear};

use plum_base::Point;

/// The radius of PLUM, in metres.
pub const RADIUS: u64 = 30_000;

/// How far two coordinates of the grid are apart, in metres.
fn apart(a: i32, b: i32) -> u64
    requires a_on_grid { IsCoordinate a }
    requires b_on_grid { IsCoordinate b }
    ensures value { result ≡ nat_abs (a -ℤ b) }
    ensures bound { result ≤ 2 ^ 31 }
{
    u64::from(a.abs_diff(b))
}

/// Whether the place is within the radius, the boundary included.
pub fn near(a: Point, b: Point) -> bool
    requires a_on_grid { IsPlace a }
    requires b_on_grid { IsPlace b }
    ensures { IsTrue result ↔ IsNear a b }
{
    let dx = apart(a.x, b.x);
    let dy = apart(a.y, b.y);
    dx * dx + dy * dy <= RADIUS * RADIUS
}
