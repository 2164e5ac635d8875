//! The opening of lanes with their gatherer.

ghost use Rattle.std.specs.Prelude.{◌≡◌, ℕ, ◌+◌, ◌/◌, ◌<◌, ◌≤◌, ◌↔◌, [], length, All, IfOk};
ghost use Rattle.plum_base.specs.Lane.{lane_of};
ghost use Rattle.plum_base.specs.Sites.{MOST_STATIONS};
ghost use Rattle.plum_core.specs.Station.{Stands};
ghost use Rattle.plum_lanes.specs.Opening.{Opening, basis_of};
ghost use Rattle.plum_lanes.specs.Lanes.{IsLane, StandForTaken};
ghost use Rattle.plum_lanes.specs.Rounds.{AreNew};
ghost use Rattle.plum_lanes.specs.Passing.{IsIdle, IsNewGather};

use crate::gatherer::Gather;
use crate::lanes::Lane;
use crate::steps::{make, split};
use plum_base::{LaneNo, NoMemory, Setup, Sites};
use plum_core::Station;
use std::alloc::Global;
use std::sync::Arc;

/// So many stations, to which nothing was given.
fn stations(alloc: Global, setup: &Setup, count: usize) -> Result<Vec<Station>, NoMemory>
    ensures count { IfOk result (λ stations. length stations.items ≡ count) }
    ensures stand { (s : ℕ)
        → IfOk result (λ stations. All (λ station. Stands station setup.now s []) stations.items) }
{
    let mut stations = Vec::new(alloc);
    for _ in 0..count {
        stations.push(Station::new(alloc, setup)?)?;
    }
    Ok(stations)
}

/// How many of so many stations a lane has. Station s of the lane stands at position s / lanes.
fn share(stations: usize, lanes: u16, number: LaneNo) -> usize
    requires lanes { number.0 < lanes }
    requires stations { stations ≤ MOST_STATIONS }
    ensures { (s : ℕ) → lane_of lanes s ≡ number.0 → s < stations ↔ s / lanes < result }
{
    (stations + lanes as usize - 1 - number.0 as usize) / lanes as usize
}

/// The next lane.
fn next_lane(
    alloc: Global,
    sites: &Sites,
    setup: &Setup,
    gather: &mut Gather,
    number: LaneNo,
) -> Result<Lane, NoMemory>
    requires number { number.0 < setup.now.lanes }
    requires gather { (opening : Opening) × (opening.basis ≡ basis_of setup.now sites.now)
        × IsNewGather opening number.0 gather.old }
    ensures gather { (opening : Opening) → IsNewGather opening number.0 gather.old
        → IfOk result (λ lane. IsNewGather opening (number.0 + 1) gather.new) }
    ensures lane { (opening : Opening) → opening.basis ≡ basis_of setup.now sites.now
        → IsNewGather opening number.0 gather.old → IfOk result (IsLane opening number.0) }
    ensures stand { IfOk result (λ lane. StandForTaken (basis_of setup.now sites.now) number.0 []
        lane.stations.items) }
    ensures idle { IfOk result IsIdle }
{
    let count = share(sites.stations().len(), setup.lanes, number);
    let stations = stations(alloc, setup, count)?;
    let ring = Arc::try_clone(&gather.ring)?;
    let pass = split(&ring, &mut gather.pass);
    Ok(Lane {
        ring,
        pass,
        number,
        lanes: setup.lanes,
        stations,
        waiting: None,
        kept: 0,
        repeats: 0,
    })
}

/// The lanes of a setup and of its stations, in the order of their numbers, and their gatherer. The
/// lanes take all their memory here.
pub fn open(alloc: Global, sites: &Sites, setup: &Setup) -> Result<(Vec<Lane>, Gather), NoMemory>
    ensures { IfOk result (λ opened. (opening : Opening)
        × (opening.basis ≡ basis_of setup.now sites.now)
        × AreNew opening opened.0.items opened.1) }
{
    let (ring, pass) = make(alloc, sites, setup)?;
    let mut gather = Gather {
        ring: Arc::new(alloc, ring)?,
        pass,
    };
    let mut lanes = Vec::new(alloc);
    for number in 0..setup.lanes {
        lanes.push(next_lane(alloc, sites, setup, &mut gather, LaneNo(number))?)?;
    }
    Ok((lanes, gather))
}
