//! The stations and the targets of a centre.

ghost use Rattle.std.specs.Prelude.{◌≡◌, ◌≢◌, ◌↔◌, ◌<◌, ◌≤◌, length, slice_get, All, Any};
ghost use Rattle.std.specs.Prelude.{IsTrue, IfOk, Some, IfSome, IfNone, IsSomeAnd};
ghost use Rattle.std.specs.List.{HoldsAt};
ghost use Rattle.plum_base.specs.Levels.{IsFactor};
ghost use Rattle.plum_base.specs.Sites.{IsPlace, areas_of, AreNumbered, AreStations, AreTargets};
ghost use Rattle.plum_base.specs.Sites.{AreCodesDistinct, AreNamesDistinct, AreLawful};
ghost use Rattle.plum_base.specs.Sites.{HasCode, HasNoCode, IsCodeTaken, IsNameTaken};

use crate::codes::stations_by_code;
use crate::memory::NoMemory;
use crate::name::Name;
use crate::numbers::{AreaNo, Point, StationNo, TargetNo, Tenths};
use std::alloc::Global;
use std::marker::Model;

/// A station: its code, its place and its site factor.
#[derive(Clone, Copy, Debug, PartialEq, Eq)]
pub struct StationSite {
    pub code: u16,
    pub at: Point,
    pub factor: Tenths,
}

/// A target: its name, its area, its place and its site factor.
#[derive(Debug, Drop)]
pub struct TargetSite {
    pub name: Name,
    pub area: Name,
    pub at: Point,
    pub factor: Tenths,
}

/// The most stations of a centre.
pub const MOST_STATIONS: usize = 4096;

/// The most targets of a centre.
pub const MOST_TARGETS: usize = 8192;

/// The most areas of a centre's targets.
pub const MOST_AREAS: usize = 64;

/// At most 4,096 stations of distinct codes and 8,192 targets of distinct names in 64 areas, all on
/// the grid. Contracts see both lists.
#[derive(Debug, Drop)]
pub struct Sites {
    stations: Vec<StationSite>,
    targets: Vec<TargetSite>,
    /// The station of each code, at the code.
    by_code: Vec<Option<StationNo>>,
    /// The names of the areas, each at its number.
    areas: Vec<Name>,
    /// The area of each target.
    numbers: Vec<AreaNo>,
}

impl Model for Sites {
    ghost use Rattle.std.specs.Prelude.{◌≡◌};
    ghost use Rattle.plum_base.specs.Sites.{SitesView, areas_of, AreNumbered, AreLawful};
    ghost use Rattle.plum_base.specs.Sites.{AreByCode};

    ghost Value = { SitesView };

    ghost view = { λ s. record { stations = s.stations.items; targets = s.targets.items } };

    ghost invariant = { λ s. AreLawful s.stations.items s.targets.items
        × (s.areas.items ≡ areas_of s.targets.items)
        × AreNumbered s.targets.items s.numbers.items
        × AreByCode s.stations.items s.by_code.items };
}

impl Sites {
    /// Both lists, which the caller has tested by `lawful`.
    pub fn new(
        alloc: Global,
        stations: Vec<StationSite>,
        targets: Vec<TargetSite>,
    ) -> Result<Sites, NoMemory>
        requires { AreLawful stations.items targets.items }
        ensures { IfOk result (λ s. s ≡ record {
          stations = stations.items;
          targets =
              targets.items;
        }) }
    {
        let by_code = stations_by_code(alloc, stations.as_slice())?;
        let areas = areas_in(alloc, targets.as_slice())?;
        let numbers = numbers_in(alloc, targets.as_slice(), areas.as_slice())?;
        Ok(Sites {
            stations,
            targets,
            by_code,
            areas,
            numbers,
        })
    }

    /// Equal sites.
    pub fn copy(&self, alloc: Global) -> Result<Sites, NoMemory>
        ensures { IfOk result (λ s. s ≡ self.now) }
    {
        let mut stations = Vec::new(alloc);
        stations.extend_from_slice(self.stations.as_slice())?;
        let targets = copy_targets(alloc, self.targets.as_slice())?;
        Sites::new(alloc, stations, targets)
    }

    /// The station with that code.
    pub fn find(&self, code: u16) -> Option<StationNo>
        ensures found { IfSome result (λ n. HasCode self.now.stations n.0 code) }
        ensures none { IfNone result (HasNoCode self.now.stations code) }
    {
        self.by_code[usize::from(code)]
    }

    /// The stations, in the order of their file.
    pub fn stations(&self) -> &[StationSite]
        ensures value { result.now ≡ self.now.stations }
        ensures lawful { AreLawful self.now.stations self.now.targets }
    {
        self.stations.as_slice()
    }

    /// The targets, in the order of their file.
    pub fn targets(&self) -> &[TargetSite]
        ensures value { result.now ≡ self.now.targets }
        ensures lawful { AreLawful self.now.stations self.now.targets }
    {
        self.targets.as_slice()
    }

    /// How many areas the targets have.
    pub fn areas(&self) -> u16
        ensures { result ≡ length (areas_of self.now.targets) }
    {
        self.areas.len() as u16
    }

    /// The name of an area. Areas are numbered by first appearance, from 0.
    pub fn area_name(&self, area: AreaNo) -> Name
        requires { area.0 < length (areas_of self.now.targets) }
        ensures { slice_get (areas_of self.now.targets) area.0 ≡ Some result }
    {
        self.areas[area.0 as usize].copy()
    }

    /// The area of a target.
    pub fn area_of(&self, target: TargetNo) -> AreaNo
        requires { target.0 < length self.now.targets }
        ensures { IsSomeAnd (slice_get self.now.targets target.0)
            (λ t. slice_get (areas_of self.now.targets) result.0 ≡ Some t.area) }
    {
        self.numbers[target.0 as usize]
    }
}

/// Whether this is one of the areas.
pub fn is_among(areas: &[Name], area: &Name) -> bool
    ensures { IsTrue result ↔ Any (λ a. a ≡ area.now) areas.now }
{
    areas.iter().any(|a| *a == *area)
}

/// The names of the areas, each where it stands first.
fn areas_in(alloc: Global, targets: &[TargetSite]) -> Result<Vec<Name>, NoMemory>
    ensures { IfOk result (λ v. v.items ≡ areas_of targets.now) }
{
    let mut areas = Vec::new(alloc);
    for target in targets {
        if !is_among(areas.as_slice(), &target.area) {
            areas.push(target.area.copy())?;
        }
    }
    Ok(areas)
}

fn position_of(areas: &[Name], area: &Name) -> Option<usize>
    ensures found { IfSome result (λ k. (k < length areas.now)
        × HoldsAt (λ a. a ≡ area.now) areas.now k) }
    ensures none { IfNone result (All (λ a. a ≢ area.now) areas.now) }
{
    areas.iter().position(|a| *a == *area)
}

/// The number of an area among those of a centre.
fn area_number(areas: &[Name], area: &Name) -> AreaNo
    requires few { length areas.now ≤ MOST_AREAS }
    requires one { Any (λ a. a ≡ area.now) areas.now }
    ensures { slice_get areas.now result.0 ≡ Some area.now }
{
    let Some(position) = position_of(areas, area) else {
        unreachable!()
    };
    AreaNo(position as u16)
}

/// The number of each target's area.
fn numbers_in(
    alloc: Global,
    targets: &[TargetSite],
    areas: &[Name],
) -> Result<Vec<AreaNo>, NoMemory>
    requires few { length areas.now ≤ MOST_AREAS }
    requires all { areas.now ≡ areas_of targets.now }
    ensures { IfOk result (λ v. AreNumbered targets.now v.items) }
{
    let mut numbers = Vec::new(alloc);
    for target in targets {
        numbers.push(area_number(areas, &target.area))?;
    }
    Ok(numbers)
}

/// Equal targets.
fn copy_targets(alloc: Global, targets: &[TargetSite]) -> Result<Vec<TargetSite>, NoMemory>
    ensures { IfOk result (λ v. v.items ≡ targets.now) }
{
    let mut copies = Vec::new(alloc);
    for target in targets {
        copies.push(TargetSite {
            name: target.name.copy(),
            area: target.area.copy(),
            at: target.at,
            factor: target.factor,
        })?;
    }
    Ok(copies)
}

/// Whether each station stands on the grid and has a factor in its range.
fn are_stations_in_range(stations: &[StationSite]) -> bool
    ensures { IsTrue result ↔ All (λ s. IsPlace s.at × IsFactor s.factor) stations.now }
{
    stations
        .iter()
        .all(|s| s.at.is_on_grid() && s.factor.is_factor())
}

/// Whether each target stands on the grid and has a factor in its range.
fn are_targets_in_range(targets: &[TargetSite]) -> bool
    ensures { IsTrue result ↔ All (λ t. IsPlace t.at × IsFactor t.factor) targets.now }
{
    targets
        .iter()
        .all(|t| t.at.is_on_grid() && t.factor.is_factor())
}

/// Whether one of the stations has this code.
pub fn has_code(stations: &[StationSite], code: u16) -> bool
    ensures { IsTrue result ↔ IsCodeTaken stations.now code }
{
    stations.iter().any(|s| s.code == code)
}

/// Whether one of the targets has this name.
pub fn has_name(targets: &[TargetSite], name: &Name) -> bool
    ensures { IsTrue result ↔ IsNameTaken targets.now name.now }
{
    targets.iter().any(|t| t.name == *name)
}

/// Whether one of the targets is of this area.
fn has_area(targets: &[TargetSite], area: &Name) -> bool
    ensures { IsTrue result ↔ Any (λ t. t.area ≡ area.now) targets.now }
{
    targets.iter().any(|t| t.area == *area)
}

// The lists are read once, when the centre starts, so comparing each member with all before it is
// fast enough, and it needs no memory.
fn are_codes_distinct(stations: &[StationSite]) -> bool
    ensures { IsTrue result ↔ AreCodesDistinct stations.now }
{
    for (i, station) in stations.iter().enumerate() {
        if has_code(&stations[..i], station.code) {
            return false;
        }
    }
    true
}

fn are_names_distinct(targets: &[TargetSite]) -> bool
    ensures { IsTrue result ↔ AreNamesDistinct targets.now }
{
    for (i, target) in targets.iter().enumerate() {
        if has_name(&targets[..i], &target.name) {
            return false;
        }
    }
    true
}

/// How many areas the targets have: each is counted at the first target that names it.
fn area_count(targets: &[TargetSite]) -> usize
    ensures { result ≡ length (areas_of targets.now) }
{
    let mut count = 0;
    for (i, target) in targets.iter().enumerate() {
        if !has_area(&targets[..i], &target.area) {
            count += 1;
        }
    }
    count
}

fn are_stations_lawful(stations: &[StationSite]) -> bool
    ensures { IsTrue result ↔ AreStations stations.now }
{
    stations.len() <= MOST_STATIONS
        && are_stations_in_range(stations)
        && are_codes_distinct(stations)
}

fn are_targets_lawful(targets: &[TargetSite]) -> bool
    ensures { IsTrue result ↔ AreTargets targets.now }
{
    targets.len() <= MOST_TARGETS
        && are_targets_in_range(targets)
        && are_names_distinct(targets)
        && area_count(targets) <= MOST_AREAS
}

/// Whether `Sites::new` takes these lists.
pub fn lawful(stations: &[StationSite], targets: &[TargetSite]) -> bool
    ensures { IsTrue result ↔ AreLawful stations.now targets.now }
{
    are_stations_lawful(stations) && are_targets_lawful(targets)
}
