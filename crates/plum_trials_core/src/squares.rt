//! The three places of one square.

use plum_base::Point;
use plum_geo::{Place, Square, square_vs_disc};
use std::test::Fail;

/// Its farthest corner is 11,584 metres from the first centre. From the last one, (0, 0) is at the
/// boundary, and (0, 1) is behind it.
#[test]
fn three_places_of_one_square(rt: HostRuntime) -> Result<(), Fail> {
    let square = Square {
        x: 0,
        y: 0,
        side: 8_192,
    };
    let inside = square_vs_disc(square, Point { x: 0, y: 0 });
    assert_eq!(rt; inside, Place::Inside);
    let outside = square_vs_disc(square, Point { x: 100_000, y: 0 });
    assert_eq!(rt; outside, Place::Outside);
    let cut = square_vs_disc(square, Point { x: 30_000, y: 0 });
    assert_eq!(rt; cut, Place::Cut);
    Ok(())
}
