//! The station file.

ghost use Rattle.std.specs.Prelude.{◌≡◌, ◌≢◌, ◌<◌, ◌∷◌, [], List, pos, length, All, refl};
ghost use Rattle.std.specs.Prelude.{IfOk, IfErr, IfSome, IfNone};
ghost use Rattle.csv.specs.Records.{fields_of};
ghost use Rattle.plum_base.specs.declared.sites.StationSite.{StationSite};
ghost use Rattle.plum_base.specs.Sites.{MOST_STATIONS as most, IsCodeTaken, AreStations};
ghost use Rattle.plum_sites.specs.Fields.{Spells, IsNumber};
ghost use Rattle.std.specs.List.{AllZip};
ghost use Rattle.plum_sites.specs.Files.{IfFault};
ghost use Rattle.plum_sites.specs.Stations.{station_header, AreStationNumbers, StatesStation};
ghost use Rattle.plum_sites.specs.Stations.{IsFirstStationFault, AreStationsOf, IsStationFaultOf};

use crate::fault::{SiteFault, SitesRefusal};
use crate::fields::number_read;
use crate::ranges::{factor, place};
use crate::walk::{SiteRows, read_sites};
use csv::ByteRecord;
use plum_base::{MOST_STATIONS, StationSite, has_code};
use std::alloc::Global;

/// The fields of a row, by column.
#[derive(Clone, Copy)]
struct StationFields<'a> {
    code: &'a [u8],
    x: &'a [u8],
    y: &'a [u8],
    factor: &'a [u8],
}

/// What number fields spell.
#[derive(Clone, Copy)]
struct StationNumbers {
    code: i32,
    x: i32,
    y: i32,
    factor: i32,
}

/// The fields of a row of four.
fn station_fields(row: &ByteRecord) -> Option<StationFields<'_>>
    ensures fields { IfSome result (λ f. fields_of row.now
        ≡ f.code.now ∷ f.x.now ∷ f.y.now ∷ f.factor.now ∷ []) }
    ensures none { IfNone result (length (fields_of row.now) ≢ length station_header) }
{
    if row.len() != 4 {
        return None;
    }
    Some(StationFields {
        code: row.get(0)?,
        x: row.get(1)?,
        y: row.get(2)?,
        factor: row.get(3)?,
    })
}

/// The numbers of the fields, if each is a number field.
fn station_numbers(fields: &StationFields<'_>) -> Option<StationNumbers>
    ensures numbers { let row = fields.now.code.now ∷ fields.now.x.now ∷ fields.now.y.now
        ∷ fields.now.factor.now ∷ [] in
        IfSome result (λ n. AllZip Spells row (n.code ∷ n.x ∷ n.y ∷ n.factor ∷ [])) }
    ensures none { let row = fields.now.code.now ∷ fields.now.x.now ∷ fields.now.y.now
        ∷ fields.now.factor.now ∷ [] in
        IfNone result (¬ All IsNumber row) }
{
    Some(StationNumbers {
        code: number_read(fields.code)?,
        x: number_read(fields.x)?,
        y: number_read(fields.y)?,
        factor: number_read(fields.factor)?,
    })
}

/// The station of numbers that are in their ranges.
fn station_of(numbers: &StationNumbers) -> Option<StationSite>
    ensures station { IfSome result (λ s. (pos s.code ≡ numbers.now.code)
        × (s.at.x ≡ numbers.now.x) × (s.at.y ≡ numbers.now.y)
        × (s.factor.0 ≡ numbers.now.factor)
        × AreStationNumbers (pos s.code) s.at.x s.at.y s.factor.0) }
    ensures none { IfNone result (¬ AreStationNumbers numbers.now.code numbers.now.x numbers.now.y
        numbers.now.factor) }
{
    let code = u16::try_from(numbers.code).ok()?;
    let at = place(numbers.x, numbers.y)?;
    let factor = factor(numbers.factor)?;
    Some(StationSite { code, at, factor })
}

/// The station of the row of that number, as far as the row alone tells.
fn station_of_row(row: &ByteRecord, number: u32) -> Result<StationSite, SiteFault>
    ensures station { IfOk result (StatesStation (fields_of row.now)) }
    ensures fault { IfErr result (λ f. (before : List StationSite)
        → IsFirstStationFault before (fields_of row.now) number f) }
{
    let Some(fields) = station_fields(row) else {
        return Err(SiteFault::Columns(number));
    };
    let Some(numbers) = station_numbers(&fields) else {
        return Err(SiteFault::Number(number));
    };
    let Some(station) = station_of(&numbers) else {
        return Err(SiteFault::Range(number));
    };
    Ok(station)
}

/// The station of a row behind those of the rows before. A centre reads its files once, so that a
/// comparison with each station before is fast enough.
fn next_station(
    before: &[StationSite],
    row: &ByteRecord,
    number: u32,
) -> Result<StationSite, SiteFault>
    ensures station { IfOk result (λ s. StatesStation (fields_of row.now) s
        × (¬ IsCodeTaken before.now s.code) × (length before.now < most)) }
    ensures fault { IfErr result (IsFirstStationFault before.now (fields_of row.now) number) }
{
    let station = station_of_row(row, number)?;
    if has_code(before, station.code) {
        return Err(SiteFault::Twice(number));
    }
    if before.len() >= MOST_STATIONS {
        return Err(SiteFault::TooMany(number));
    }
    Ok(station)
}

/// The stations of the rows so far.
#[derive(Drop)]
struct StationRows {
    stations: Vec<StationSite>,
}

impl SiteRows for StationRows {
    type Site = StationSite;

    ghost MOST = { most };

    const MOST: u16 = MOST_STATIONS as u16;

    ghost header = { station_header };

    ghost states = { StatesStation };

    ghost are_lawful = { AreStations };

    ghost is_first_fault = { IsFirstStationFault };

    ghost sites = { λ rows. rows.stations.items };

    ghost is_sound = { λ rows. AreStations rows.stations.items };

    fn new(alloc: Global) -> StationRows {
        StationRows {
            stations: Vec::new(alloc),
        }
    }

    fn is_header(row: &ByteRecord) -> bool {
        station_fields(row).is_some_and(|f| {
            f.code == b"code".as_slice()
                && f.x == b"x".as_slice()
                && f.y == b"y".as_slice()
                && f.factor == b"factor".as_slice()
        })
    }

    fn add(&mut self, row: &ByteRecord, number: u32) -> Result<(), SitesRefusal> {
        let station = next_station(self.stations.as_slice(), row, number)?;
        self.stations.push(station)?;
        Ok(())
    }

    ghost sound_is_lawful = { λ rows sound. sound };

    ghost lawful_is_few = { λ xs lawful. lawful.few };

    ghost most_fits = { refl };
}

/// The stations that the bytes of a station file state, or what is wrong first with them.
pub fn read_stations(alloc: Global, bytes: &[u8]) -> Result<Vec<StationSite>, SitesRefusal>
    ensures stations { IfOk result (λ v. AreStationsOf bytes.now v.items) }
    ensures lawful { IfOk result (λ v. AreStations v.items) }
    ensures fault { IfErr result (λ e. IfFault e (IsStationFaultOf bytes.now)) }
{
    read_sites::<StationRows>(alloc, bytes).map(|rows| rows.stations)
}
