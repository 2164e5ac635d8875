//! The stations and the targets of whole files.

use plum_base::{AreaNo, Point, Sites, StationSite, TargetNo, TargetSite, Tenths, lawful};
use plum_sites::{read_stations, read_targets};
use std::alloc::{AllocError, Global};
use std::process::Abort;
use std::test::Fail;

const STATIONS: u16 = 400;

const TARGETS: u16 = 64;

const AREAS: u16 = 8;

/// Stations 4 km apart in rows of 20, with factors from -2 to 2.
fn station(i: u16) -> StationSite {
    StationSite {
        code: i.saturating_add(1),
        at: Point {
            x: i32::from(i % 20) * 4_000,
            y: i32::from(i / 20) * 4_000,
        },
        factor: Tenths((i % 5) as i16 - 2),
    }
}

fn station_file(alloc: Global) -> Result<String, AllocError> {
    let mut text = String::from_str(alloc, "code,x,y,factor\n")?;
    for i in 0..STATIONS {
        let site = station(i);
        let (code, at, factor) = (site.code, site.at, site.factor.0);
        writeln!(text, "{code},{},{},{factor}", at.x, at.y)?;
    }
    Ok(text)
}

/// Targets 10 km apart in rows of eight, with factors from -1 to 1.
fn target_place(j: u16) -> Point {
    Point {
        x: i32::from(j % 8) * 10_000,
        y: i32::from(j / 8) * 10_000,
    }
}

fn target_factor(j: u16) -> Tenths {
    Tenths((j % 3) as i16 - 1)
}

fn target_name(alloc: Global, j: u16) -> Result<String, AllocError> {
    format!(in alloc; "t{j:02}")
}

/// The name of the area with this number.
fn area_name(alloc: Global, area: u16) -> Result<String, AllocError> {
    format!(in alloc; "a{area}")
}

fn target_file(alloc: Global) -> Result<String, AllocError> {
    let mut text = String::from_str(alloc, "name,area,x,y,factor\n")?;
    for j in 0..TARGETS {
        let (name, area) = (target_name(alloc, j)?, area_name(alloc, j % AREAS)?);
        let (at, factor) = (target_place(j), target_factor(j).0);
        writeln!(text, "{name},{area},{},{},{factor}", at.x, at.y)?;
    }
    Ok(text)
}

fn expect_stations(rt: &impl Abort, stations: &[StationSite]) {
    assert_eq!(rt; stations.len(), usize::from(STATIONS));
    for (i, found) in (0..STATIONS).zip(stations.iter()) {
        assert_eq!(rt; *found, station(i));
    }
}

fn expect_targets(rt: &impl Abort, alloc: Global, targets: &[TargetSite]) -> Result<(), Fail> {
    assert_eq!(rt; targets.len(), usize::from(TARGETS));
    for (j, found) in (0..TARGETS).zip(targets.iter()) {
        let (name, area) = (target_name(alloc, j)?, area_name(alloc, j % AREAS)?);
        assert_eq!(rt; found.name.as_slice(), name.as_bytes());
        assert_eq!(rt; found.area.as_slice(), area.as_bytes());
        assert_eq!(rt;
            (found.at, found.factor),
            (target_place(j), target_factor(j))
        );
    }
    Ok(())
}

fn expect_areas(rt: &impl Abort, alloc: Global, sites: &Sites) -> Result<(), Fail> {
    assert_eq!(rt; sites.areas(), AREAS);
    for area in 0..AREAS {
        let name = area_name(alloc, area)?;
        assert_eq!(rt; sites.area_name(AreaNo(area)).as_slice(), name.as_bytes());
    }
    assert_eq!(rt; sites.targets().len(), usize::from(TARGETS));
    for j in 0..TARGETS {
        assert_eq!(rt; sites.area_of(TargetNo(j)), AreaNo(j % AREAS));
    }
    Ok(())
}

#[test]
fn sites_of_two_files(rt: HostRuntime) -> Result<(), Fail> {
    let alloc = rt.alloc();
    let stations = read_stations(alloc, station_file(alloc)?.as_bytes())?;
    let targets = read_targets(alloc, target_file(alloc)?.as_bytes())?;
    expect_stations(&rt, stations.as_slice());
    expect_targets(&rt, alloc, targets.as_slice())?;
    assert!(rt; lawful(stations.as_slice(), targets.as_slice()));
    expect_areas(&rt, alloc, &Sites::new(alloc, stations, targets)?)
}
