//! Site files at fault, and files that look like it.

use plum_sites::{SiteFault, SitesRefusal, read_stations, read_targets};
use std::alloc::{AllocError, Global};
use std::process::Abort;
use std::test::Fail;

/// Station files without their header, and the first fault, if there is one.
const STATION_ROWS: [(&str, Option<SiteFault>); 26] = [
    ("", None),
    ("65535,4194303,4194303,100\n0,0,0,-100", None),
    ("000000001,0,0,-0\r\n\"2\",0,0,0", None),
    ("1,0,0", Some(SiteFault::Columns(2))),
    ("1,0,0,0,0", Some(SiteFault::Columns(2))),
    ("1,a,0,0", Some(SiteFault::Number(2))),
    ("+1,0,0,0", Some(SiteFault::Number(2))),
    ("1, 0,0,0", Some(SiteFault::Number(2))),
    ("1,0,,0", Some(SiteFault::Number(2))),
    ("1,0,0,-", Some(SiteFault::Number(2))),
    ("0000000001,0,0,0", Some(SiteFault::Number(2))),
    ("65536,0,0,0", Some(SiteFault::Range(2))),
    ("-1,0,0,0", Some(SiteFault::Range(2))),
    ("1,4194304,0,0", Some(SiteFault::Range(2))),
    ("1,-1,0,0", Some(SiteFault::Range(2))),
    ("1,0,4194304,0", Some(SiteFault::Range(2))),
    ("1,0,-1,0", Some(SiteFault::Range(2))),
    ("1,0,0,101", Some(SiteFault::Range(2))),
    ("1,0,0,-101", Some(SiteFault::Range(2))),
    ("1,0,0,0\n1,0,0,0", Some(SiteFault::Twice(3))),
    ("1,0,0,0\n\n2,0,0,0\n\n01,1,1,1", Some(SiteFault::Twice(4))),
    // In one row.
    ("1,a,0", Some(SiteFault::Columns(2))),
    ("65536,a,0,0", Some(SiteFault::Number(2))),
    ("1,0,0,0\n1,0,0,101", Some(SiteFault::Range(3))),
    // In two.
    ("1,0,0,101\n1,0,0", Some(SiteFault::Range(2))),
    ("1,0,0,0\n1,0,0,0\n2,a,0,0", Some(SiteFault::Twice(3))),
];

/// Target files without their header.
const TARGET_ROWS: [(&str, Option<SiteFault>); 18] = [
    ("", None),
    ("abcdefghijklmnop,_9Z,4194303,0,100\nt,_9Z,0,0,-100", None),
    ("t,a,0,0,0\nT,a,0,0,0", None),
    ("t,a,0,0", Some(SiteFault::Columns(2))),
    ("t,a,0,0,0,0", Some(SiteFault::Columns(2))),
    ("t,a,x,0,0", Some(SiteFault::Number(2))),
    ("t,a,0,0,0.5", Some(SiteFault::Number(2))),
    (",a,0,0,0", Some(SiteFault::Range(2))),
    ("t,,0,0,0", Some(SiteFault::Range(2))),
    ("t-,a,0,0,0", Some(SiteFault::Range(2))),
    ("t,a b,0,0,0", Some(SiteFault::Range(2))),
    ("abcdefghijklmnopq,a,0,0,0", Some(SiteFault::Range(2))),
    ("t,a,4194304,0,0", Some(SiteFault::Range(2))),
    ("t,a,0,0,-101", Some(SiteFault::Range(2))),
    ("t,a,0,0,0\nt,b,1,1,1", Some(SiteFault::Twice(3))),
    // In one row.
    ("t,a,x,0", Some(SiteFault::Columns(2))),
    ("t-,a,x,0,0", Some(SiteFault::Number(2))),
    ("t,a,0,0,0\nt,a,0,0,101", Some(SiteFault::Range(3))),
];

/// Files without the header of stations, and with it.
const STATION_HEADERS: [(&str, Option<SiteFault>); 8] = [
    ("", Some(SiteFault::Header)),
    ("code,x,y", Some(SiteFault::Header)),
    ("code,x,y,Factor", Some(SiteFault::Header)),
    ("code,x,y,factor,", Some(SiteFault::Header)),
    ("1,0,0,0", Some(SiteFault::Header)),
    ("name,area,x,y,factor", Some(SiteFault::Header)),
    ("\ncode,x,y,factor", None),
    ("\u{feff}code,x,y,factor", None),
];

const TARGET_HEADERS: [(&str, Option<SiteFault>); 4] = [
    ("", Some(SiteFault::Header)),
    ("name,area,x,y", Some(SiteFault::Header)),
    ("code,x,y,factor", Some(SiteFault::Header)),
    ("name,area,x,y,\"factor\"", None),
];

/// What is wrong first with a station file.
fn expect_stations(
    rt: &impl Abort,
    alloc: Global,
    text: &str,
    fault: Option<SiteFault>,
) -> Result<(), Fail> {
    let found = read_stations(alloc, text.as_bytes()).err();
    assert_eq!(rt; found, fault.map(SitesRefusal::Sites), "{text}");
    Ok(())
}

fn expect_targets(
    rt: &impl Abort,
    alloc: Global,
    text: &str,
    fault: Option<SiteFault>,
) -> Result<(), Fail> {
    let found = read_targets(alloc, text.as_bytes()).err();
    assert_eq!(rt; found, fault.map(SitesRefusal::Sites), "{text}");
    Ok(())
}

#[test]
fn station_faults(rt: HostRuntime) -> Result<(), Fail> {
    let alloc = rt.alloc();
    for (text, fault) in STATION_HEADERS.iter() {
        expect_stations(&rt, alloc, text, *fault)?;
    }
    for (rows, fault) in STATION_ROWS.iter() {
        let text = format!(in alloc; "code,x,y,factor\n{rows}")?;
        expect_stations(&rt, alloc, text.as_str(), *fault)?;
    }
    Ok(())
}

#[test]
fn target_faults(rt: HostRuntime) -> Result<(), Fail> {
    let alloc = rt.alloc();
    for (text, fault) in TARGET_HEADERS.iter() {
        expect_targets(&rt, alloc, text, *fault)?;
    }
    for (rows, fault) in TARGET_ROWS.iter() {
        let text = format!(in alloc; "name,area,x,y,factor\n{rows}")?;
        expect_targets(&rt, alloc, text.as_str(), *fault)?;
    }
    Ok(())
}

/// This many stations, and a last row.
fn many_stations(alloc: Global, count: u32, last: &str) -> Result<String, AllocError> {
    let mut text = String::from_str(alloc, "code,x,y,factor\n")?;
    for i in 0..count {
        writeln!(text, "{i},0,0,0")?;
    }
    text.push_str(last)?;
    Ok(text)
}

/// This many targets, each in an area of its own, and a last row.
fn many_areas(alloc: Global, count: u32, last: &str) -> Result<String, AllocError> {
    let mut text = String::from_str(alloc, "name,area,x,y,factor\n")?;
    for i in 0..count {
        writeln!(text, "t{i},a{i},0,0,0")?;
    }
    text.push_str(last)?;
    Ok(text)
}

/// Rows behind the most stations: a repeat is told before that they are too many.
const LAST_STATIONS: [(&str, Option<SiteFault>); 3] = [
    ("", None),
    ("4096,0,0,0", Some(SiteFault::TooMany(4_098))),
    ("4095,0,0,0", Some(SiteFault::Twice(4_098))),
];

/// Rows behind the most areas.
const LAST_AREAS: [(&str, Option<SiteFault>); 3] = [
    ("t64,a0,0,0,0", None),
    ("t64,a64,0,0,0", Some(SiteFault::TooMany(66))),
    ("t63,a64,0,0,0", Some(SiteFault::Twice(66))),
];

#[test]
fn too_many_sites(rt: HostRuntime) -> Result<(), Fail> {
    let alloc = rt.alloc();
    for (last, fault) in LAST_STATIONS.iter() {
        let text = many_stations(alloc, 4_096, last)?;
        expect_stations(&rt, alloc, text.as_str(), *fault)?;
    }
    for (last, fault) in LAST_AREAS.iter() {
        let text = many_areas(alloc, 64, last)?;
        expect_targets(&rt, alloc, text.as_str(), *fault)?;
    }
    Ok(())
}
