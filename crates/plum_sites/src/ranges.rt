//! The ranges of the numbers of a site.

ghost use Rattle.std.specs.Prelude.{◌≡◌, IfSome, IfNone};
ghost use Rattle.plum_base.specs.Levels.{IsFactor};
ghost use Rattle.plum_base.specs.Sites.{IsPlace};

use plum_base::{Point, Tenths};

/// The place on the grid with these coordinates.
pub fn place(x: i32, y: i32) -> Option<Point>
    ensures place { IfSome result (λ p. (p.x ≡ x) × (p.y ≡ y) × IsPlace p) }
    ensures none { IfNone result (¬ IsPlace (record { x = x; y = y })) }
{
    let place = Point { x, y };
    place.is_on_grid().then_some(place)
}

/// The factor of that many tenths.
pub fn factor(tenths: i32) -> Option<Tenths>
    ensures factor { IfSome result (λ t. (t.0 ≡ tenths) × IsFactor t) }
    ensures none { IfNone result (¬ IsFactor (record { 0 = tenths })) }
{
    let factor = Tenths(i16::try_from(tenths).ok()?);
    factor.is_factor().then_some(factor)
}
