//! The stations and the targets of a drill, and their files.

ghost use Rattle.std.specs.Prelude.{◌≡◌, ◌<◌, ◌≤◌, ◌++◌, IfOk, OnOk};
ghost use Rattle.plum.specs.DrillFiles.{MOST_DRILL_STATIONS};
ghost use Rattle.plum.specs.DrillSites.{DRILL_TARGETS, drill_station, drill_target};
ghost use Rattle.plum.specs.DrillSites.{drill_stations, drill_targets, place_fields};
ghost use Rattle.plum.specs.DrillSites.{integer_field, station_row, target_row};
ghost use Rattle.plum.specs.DrillSites.{stations_text, targets_text};

use super::numbers::{put_integer, put_natural};
use plum_base::{Bytes, Name, NoMemory, Point, StationSite, TargetSite, Tenths};
use std::alloc::Global;

/// How many targets a drill has.
const DRILL_TARGETS: u16 = 64;

/// The station at a position, from 0: rows of twenty, 4 km apart.
fn drill_station(i: u16) -> StationSite
    requires { i < MOST_DRILL_STATIONS }
    ensures { result ≡ drill_station i }
{
    StationSite {
        code: i + 1,
        at: Point {
            x: 4000 * i32::from(i % 20),
            y: 4000 * i32::from(i / 20),
        },
        factor: Tenths((i % 5) as i16 - 2),
    }
}

/// The target at a position, from 0: rows of eight, 10 km apart, and an area for each place in a
/// row.
fn drill_target(j: u16) -> TargetSite
    requires { j < DRILL_TARGETS }
    ensures { result ≡ drill_target j }
{
    let tens = b'0' + (j / 10) as u8;
    let ones = b'0' + (j % 10) as u8;
    let area = b'0' + (j % 8) as u8;
    TargetSite {
        name: Name::read(&[b't', tens, ones]).unwrap(),
        area: Name::read(&[b'a', area]).unwrap(),
        at: Point {
            x: 10_000 * i32::from(j % 8),
            y: 10_000 * i32::from(j / 8),
        },
        factor: Tenths((j % 3) as i16 - 1),
    }
}

/// The stations of a drill, in file order.
pub fn drill_stations(alloc: Global, stations: u16) -> Result<Vec<StationSite>, NoMemory>
    requires { stations ≤ MOST_DRILL_STATIONS }
    ensures { IfOk result (λ sites. sites.items ≡ drill_stations stations) }
{
    let mut sites = Vec::new(alloc);
    for i in 0..stations {
        sites.push(drill_station(i))?;
    }
    Ok(sites)
}

/// The targets of each drill, in file order.
pub fn drill_targets(alloc: Global) -> Result<Vec<TargetSite>, NoMemory>
    ensures { IfOk result (λ sites. sites.items ≡ drill_targets) }
{
    let mut sites = Vec::new(alloc);
    for j in 0..DRILL_TARGETS {
        sites.push(drill_target(j))?;
    }
    Ok(sites)
}

/// Appends a signed number as a field that is not the first.
fn put_field(text: &mut Bytes, z: i32) -> Result<(), NoMemory>
    ensures { OnOk result (text.new ≡ text.old ++ integer_field z) }
{
    text.extend(b",")?;
    put_integer(text, z)
}

/// Appends a place and a factor, the last fields of a row.
fn put_place(text: &mut Bytes, at: Point, factor: Tenths) -> Result<(), NoMemory>
    ensures { OnOk result (text.new ≡ text.old ++ place_fields at factor) }
{
    put_field(text, at.x)?;
    put_field(text, at.y)?;
    put_field(text, i32::from(factor.0))?;
    text.extend(b"\n")
}

/// Appends the row of a station.
fn put_station(text: &mut Bytes, site: &StationSite) -> Result<(), NoMemory>
    ensures { OnOk result (text.new ≡ text.old ++ station_row site.now) }
{
    put_natural(text, u64::from(site.code))?;
    put_place(text, site.at, site.factor)
}

/// Appends the row of a target.
fn put_target(text: &mut Bytes, site: &TargetSite) -> Result<(), NoMemory>
    ensures { OnOk result (text.new ≡ text.old ++ target_row site.now) }
{
    text.extend(site.name.as_slice())?;
    text.extend(b",")?;
    text.extend(site.area.as_slice())?;
    put_place(text, site.at, site.factor)
}

/// The file of stations.
pub fn stations_text(alloc: Global, stations: &[StationSite]) -> Result<Bytes, NoMemory>
    ensures { IfOk result (λ text. text ≡ stations_text stations.now) }
{
    let mut text = Bytes::new(alloc)?;
    text.extend(b"code,x,y,factor\n")?;
    for site in stations {
        put_station(&mut text, site)?;
    }
    Ok(text)
}

/// The file of targets.
pub fn targets_text(alloc: Global, targets: &[TargetSite]) -> Result<Bytes, NoMemory>
    ensures { IfOk result (λ text. text ≡ targets_text targets.now) }
{
    let mut text = Bytes::new(alloc)?;
    text.extend(b"name,area,x,y,factor\n")?;
    for site in targets {
        put_target(&mut text, site)?;
    }
    Ok(text)
}
