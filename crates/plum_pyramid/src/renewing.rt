//! The maxima after a station was set.

ghost use Rattle.std.specs.Prelude.{◌≡◌, ◌<◌, length};
ghost use Rattle.plum_pyramid.specs.Cells.{HasValues, AreMaximaWithout, IsRenewed};

use crate::layout::Layout;
use crate::maxima::greatest_said;
use plum_base::{StationNo, Tenths};
use plum_geo::greater_of;

/// Takes the maxima of a cell, and of all within it, anew after this station was set. Those without
/// the station stay.
pub fn renew(
    layout: &Layout,
    values: &[Option<Tenths>],
    maxima: &mut [Option<Tenths>],
    station: StationNo,
    here: usize,
)
    requires values { HasValues layout.now values.now }
    requires station { station.0 < length values.now }
    requires cell { here < length layout.now.cells.items }
    requires maxima { AreMaximaWithout layout.now values.now maxima.old station.0 }
    ensures { IsRenewed layout.now values.now maxima.old maxima.new here }
{
    let cell = layout.cells[here];
    if !cell.square.holds(layout.stations[station.0 as usize].at) {
        return;
    }
    if cell.skip == here + 1 {
        maxima[here] = greatest_said(layout.members.as_slice(), values, cell.first, cell.end);
        return;
    }
    let mut greatest = None;
    let mut part = here + 1;
    while part < cell.skip {
        renew(layout, values, maxima, station, part);
        greatest = greater_of(greatest, maxima[part]);
        part = layout.cells[part].skip;
    }
    maxima[here] = greatest;
}
