//! The order of the stations.

ghost use Rattle.std.specs.Prelude.{IfOk};
ghost use Rattle.plum_base.specs.Sites.{AreStations};
ghost use Rattle.plum_pyramid.specs.Cells.{AreMembers};

use crate::layout::Member;
use crate::planting::LEAF_SIDE;
use plum_base::{Point, StationNo, StationSite};
use std::alloc::{AllocError, Global};

/// Each of the lower sixteen bits at twice its place, with a gap behind it.
fn spread(n: u32) -> u32 {
    let n = (n | (n << 8)) & 0x00FF_00FF;
    let n = (n | (n << 4)) & 0x0F0F_0F0F;
    let n = (n | (n << 2)) & 0x3333_3333;
    (n | (n << 1)) & 0x5555_5555
}

/// Where a place comes on Morton's curve through the leaf squares. It decides in which order the
/// stations stand, so how few cells the pyramid has, and no answer.
fn place_on_curve(at: Point) -> u32 {
    let column = at.x.unsigned_abs() / LEAF_SIDE.unsigned_abs();
    let row = at.y.unsigned_abs() / LEAF_SIDE.unsigned_abs();
    (spread(row) << 1) | spread(column)
}

/// The stations with their numbers, in file order.
fn numbered(alloc: Global, stations: &[StationSite]) -> Result<Vec<Member>, AllocError>
    requires { AreStations stations.now }
    ensures { IfOk result (λ members. AreMembers stations.now members.items) }
{
    let mut members = Vec::new(alloc);
    for (n, site) in stations.iter().enumerate() {
        members.push(Member {
            site: *site,
            number: StationNo(n as u16),
        })?;
    }
    Ok(members)
}

/// The stations with their numbers, along the curve.
pub fn members_of(alloc: Global, stations: &[StationSite]) -> Result<Vec<Member>, AllocError>
    requires { AreStations stations.now }
    ensures { IfOk result (λ members. AreMembers stations.now members.items) }
{
    let mut members = numbered(alloc, stations)?;
    members.sort_by_key(|m| place_on_curve(m.site.at))?;
    Ok(members)
}
