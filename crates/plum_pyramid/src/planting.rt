//! The squares of a pyramid.

ghost use Rattle.std.specs.Prelude.{◌≡◌, ℕ, ◌+◌, ◌<◌, ◌≤◌, ◌≤ℤ◌, ◌<ℤ◌, pos, length, slice_get};
ghost use Rattle.std.specs.Prelude.{Some};
ghost use Rattle.std.specs.Prelude.{IfOk, OnOk};
ghost use Rattle.plum_base.specs.Sites.{AreStations};
ghost use Rattle.plum_base.specs.declared.sites.StationSite.{StationSite};
ghost use Rattle.plum_geo.specs.Square.{IsStretch, IsAlong, IsSquare, IsWithin};
ghost use Rattle.plum_pyramid.specs.Cells.{IsHalf, AreHeld, AreCellsOf, Grows, IsLaid};
ghost use Rattle.plum_pyramid.specs.declared.layout.Member.{Member};

use crate::curve::members_of;
use crate::layout::{Cell, Layout, Member};
use plum_base::{GRID_END, NoMemory, Point, StationSite};
use plum_geo::Square;
use std::alloc::{AllocError, Global};

/// The side of a leaf square, in metres. There are 512 by 512 of them, and each square above joins
/// four.
pub const LEAF_SIDE: i32 = 8_192;

/// The square of the whole grid.
const GRID: Square = Square {
    x: 0,
    y: 0,
    side: GRID_END + 1,
};

/// Half of a side. Sides are even; of an odd one it would be the greater half.
fn half_of(side: i32) -> i32
    requires { LEAF_SIDE <ℤ side }
    ensures half { IsHalf result side }
    ensures smaller { result <ℤ side }
{
    side - side / 2
}

/// Where the half of a stretch begins in which a coordinate lies.
fn half_from(from: i32, side: i32, half: i32, z: i32) -> i32
    requires stretch { IsStretch from side }
    requires along { IsAlong z from side }
    requires half { IsHalf half side }
    ensures stretch { IsStretch result half }
    ensures along { IsAlong z result half }
{
    if z < from + half {
        from
    } else {
        from + (side - half)
    }
}

/// The quarter of a square that holds a place of it.
fn quarter_at(square: Square, at: Point) -> Square
    requires square { IsSquare square }
    requires within { IsWithin at square }
    requires large { LEAF_SIDE <ℤ square.side }
    ensures square { IsSquare result }
    ensures within { IsWithin at result }
    ensures smaller { result.side <ℤ square.side }
{
    let half = half_of(square.side);
    Square {
        x: half_from(square.x, square.side, half, at.x),
        y: half_from(square.y, square.side, half, at.y),
        side: half,
    }
}

/// The first member from `first + 1` up to `end` that does not lie in the square, or `end`.
fn run_end(members: &[Member], first: usize, end: usize, square: Square) -> usize
    requires square { IsSquare square }
    requires run { first < end }
    requires bound { end ≤ length members.now }
    requires begins { AreHeld members.now first (first + 1) square }
    ensures some { first < result }
    ensures bound { result ≤ end }
    ensures held { AreHeld members.now first result square }
{
    let mut p = first + 1;
    while p < end && square.holds(members[p].site.at) {
        p += 1;
    }
    p
}

/// The least square of the pyramid that holds a run: a square of which one quarter holds it all
/// gives way to that quarter.
fn least_square(members: &[Member], first: usize, end: usize, square: Square) -> Square
    requires square { IsSquare square }
    requires run { first < end }
    requires bound { end ≤ length members.now }
    requires held { AreHeld members.now first end square }
    ensures square { IsSquare result }
    ensures held { AreHeld members.now first end result }
    ensures side { result.side ≤ℤ square.side }
{
    let mut least = square;
    while LEAF_SIDE < least.side {
        let quarter = quarter_at(least, members[first].site.at);
        if run_end(members, first, end, quarter) < end {
            return least;
        }
        least = quarter;
    }
    least
}

/// Adds the cell of a run, and behind it all cells within it.
fn plant(
    cells: &mut Vec<Cell>,
    members: &[Member],
    first: usize,
    end: usize,
    square: Square,
) -> Result<(), AllocError>
    requires square { IsSquare square }
    requires run { first < end }
    requires bound { end ≤ length members.now }
    requires held { AreHeld members.now first end square }
    ensures { OnOk result (Grows members.now cells.old.items cells.new.items first end) }
{
    let square = least_square(members, first, end, square);
    let here = cells.len();
    let skip = here + 1;
    cells.push(Cell {
        square,
        first,
        end,
        skip,
    })?;
    if square.side <= LEAF_SIDE {
        return Ok(());
    }
    let mut from = first;
    while from < end {
        let quarter = quarter_at(square, members[from].site.at);
        let to = run_end(members, from, end, quarter);
        plant(cells, members, from, to, quarter)?;
        from = to;
    }
    cells[here].skip = cells.len();
    Ok(())
}

/// All cells of these members.
fn cells_of(alloc: Global, members: &[Member]) -> Result<Vec<Cell>, AllocError>
    requires on_grid { AreHeld members.now 0 (length members.now) GRID }
    ensures { IfOk result (λ cells. AreCellsOf members.now cells.items) }
{
    let mut cells = Vec::new(alloc);
    if !members.is_empty() {
        plant(&mut cells, members, 0, members.len(), GRID)?;
    }
    Ok(cells)
}

/// The layout of the stations.
pub fn layout_of(alloc: Global, sites: &[StationSite]) -> Result<Layout, NoMemory>
    requires lawful { AreStations sites.now }
    ensures laid { IfOk result IsLaid }
    ensures stations { IfOk result (λ layout. layout.stations.items ≡ sites.now) }
{
    let mut stations = Vec::new(alloc);
    stations.extend_from_slice(sites)?;
    let members = members_of(alloc, sites)?;
    let cells = cells_of(alloc, members.as_slice())?;
    Ok(Layout {
        stations,
        members,
        cells,
    })
}
