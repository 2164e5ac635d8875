//! Sites on a line.

ghost use Rattle.std.specs.Prelude.{◌≡◌, length, IfOk};

use plum_base::{Name, NoMemory, Point, Sites, StationSite, TargetSite, Tenths, lawful};
use std::alloc::Global;
use std::test::Fail;

/// So many stations of the codes from 1 on, in a row that begins at (0, 0) and goes on along x.
fn stations_of(alloc: Global, count: u16, apart: i32) -> Result<Vec<StationSite>, NoMemory>
    ensures { IfOk result (λ stations. length stations.items ≡ count) }
{
    let mut stations = Vec::new(alloc);
    for i in 0..count {
        stations.push(StationSite {
            code: i.saturating_add(1),
            at: Point {
                x: i32::from(i).saturating_mul(apart),
                y: 0,
            },
            factor: Tenths(0),
        })?;
    }
    Ok(stations)
}

fn name_of(text: &str) -> Result<Name, Fail> {
    Ok(Name::read(text.as_bytes()).ok_or("a name")?)
}

/// Targets of these names, in the areas of these names, and at these x.
fn targets_of(alloc: Global, places: &[(&str, &str, i32)]) -> Result<Vec<TargetSite>, Fail> {
    let mut targets = Vec::new(alloc);
    for (name, area, x) in places {
        targets.push(TargetSite {
            name: name_of(name)?,
            area: name_of(area)?,
            at: Point { x: *x, y: 0 },
            factor: Tenths(0),
        })?;
    }
    Ok(targets)
}

/// So many stations, from x = 0 on with as many metres between neighbours as `apart` says, their
/// codes from 1; and targets: the name of each, its area, and its x in metres. None has a factor.
pub fn sites_of(
    alloc: Global,
    stations: u16,
    apart: i32,
    targets: &[(&str, &str, i32)],
) -> Result<Sites, Fail>
    ensures { IfOk result (λ sites. length sites.stations ≡ stations) }
{
    let stations = stations_of(alloc, stations, apart)?;
    let targets = targets_of(alloc, targets)?;
    if !lawful(stations.as_slice(), targets.as_slice()) {
        return Err("lawful sites")?;
    }
    Ok(Sites::new(alloc, stations, targets)?)
}
