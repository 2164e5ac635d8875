//! The best at a place, by the squares of a pyramid.

ghost use Rattle.std.specs.Prelude.{◌≡◌, ◌↔◌, ◌<◌, length, IsTrue};
ghost use Rattle.plum_base.specs.Sites.{IsPlace};
ghost use Rattle.plum_geo.specs.Square.{IsSquare};
ghost use Rattle.plum_pyramid.specs.Cells.{HasValues, AreMaxima, HasSearched};
ghost use Rattle.plum_geo.specs.Prediction.{IsAtMost};
ghost use Rattle.plum_pyramid.specs.Maxima.{said_at, IsAnswer, IsGreatest};

use crate::layout::Layout;
use crate::maxima::greatest_said_at;
use plum_base::{Point, Tenths};
use plum_geo::{Place, Square, greater_of, square_vs_disc};

/// How far a search has come: the best so far, and the cell that is next.
#[derive(Clone, Copy, Debug)]
pub struct Search {
    pub best: Option<Tenths>,
    pub next: usize,
}

fn is_at_most(a: Option<Tenths>, b: Option<Tenths>) -> bool
    ensures { IsTrue result ↔ IsAtMost a b }
{
    a <= b
}

/// What is to be done with a square whose stations say this at most: one that cannot better the
/// best so far is left, as one outside is.
fn answer_of(square: Square, greatest: Option<Tenths>, best: Option<Tenths>, place: Point) -> Place
    requires square { IsSquare square }
    requires place { IsPlace place }
    ensures { IsAnswer square place greatest best result }
{
    if is_at_most(greatest, best) {
        Place::Outside
    } else {
        square_vs_disc(square, place)
    }
}

/// The search after one cell more: a cell inside the disc gives its maximum, one outside is left,
/// one that is cut is opened, and a leaf that is cut has its own stations looked at.
fn step(
    layout: &Layout,
    values: &[Option<Tenths>],
    maxima: &[Option<Tenths>],
    place: Point,
    search: Search,
) -> Search
    requires values { HasValues layout.now values.now }
    requires maxima { AreMaxima layout.now values.now maxima.now }
    requires place { IsPlace place }
    requires searched { HasSearched layout.now values.now place search }
    requires more { search.next < length layout.now.cells.items }
    ensures searched { HasSearched layout.now values.now place result }
    ensures further { search.next < result.next }
{
    let here = search.next;
    let best = search.best;
    let cell = layout.cells[here];
    let greatest = maxima[here];
    match answer_of(cell.square, greatest, best, place) {
        Place::Inside => Search {
            best: greater_of(best, greatest),
            next: cell.skip,
        },
        Place::Outside => Search {
            best,
            next: cell.skip,
        },
        Place::Cut if here + 1 < cell.skip => Search {
            best,
            next: here + 1,
        },
        Place::Cut => {
            let members = layout.members.as_slice();
            let own = greatest_said_at(members, values, place, cell.first, cell.end);
            Search {
                best: greater_of(best, own),
                next: cell.skip,
            }
        }
    }
}

/// The best at a place.
pub fn best_at(
    layout: &Layout,
    values: &[Option<Tenths>],
    maxima: &[Option<Tenths>],
    place: Point,
) -> Option<Tenths>
    requires values { HasValues layout.now values.now }
    requires maxima { AreMaxima layout.now values.now maxima.now }
    requires place { IsPlace place }
    ensures { IsGreatest (said_at values.now place) layout.now.members.items 0
        (length layout.now.members.items) result }
{
    let mut search = Search {
        best: None,
        next: 0,
    };
    while search.next < layout.cells.len() {
        search = step(layout, values, maxima, place, search);
    }
    search.best
}
