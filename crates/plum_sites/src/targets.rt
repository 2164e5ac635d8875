//! The target file.

ghost use Rattle.std.specs.Prelude.{◌≡◌, ◌≢◌, ◌↔◌, ◌<◌, ◌≤◌, ◌∷◌, [], ◌++◌, List, length};
ghost use Rattle.std.specs.Prelude.{All, IsTrue, IfOk, IfErr, IfSome, IfNone, OnOk, refl};
ghost use Rattle.csv.specs.Records.{fields_of};
ghost use Rattle.plum_base.specs.declared.sites.TargetSite.{TargetSite};
ghost use Rattle.plum_base.specs.Sites.{MOST_TARGETS as most, MOST_AREAS as most_areas, areas_of};
ghost use Rattle.plum_base.specs.Sites.{IsNameTaken, AreTargets};
ghost use Rattle.plum_sites.specs.Fields.{Spells, IsNumber};
ghost use Rattle.std.specs.List.{AllZip};
ghost use Rattle.plum_sites.specs.Files.{IfFault};
ghost use Rattle.plum_sites.specs.Targets.{target_header, AreTargetFields, StatesTarget};
ghost use Rattle.plum_sites.specs.Targets.{IsFirstTargetFault, AreTargetsOf, IsTargetFaultOf};

use crate::fault::{SiteFault, SitesRefusal};
use crate::fields::number_read;
use crate::ranges::{factor, place};
use crate::walk::{SiteRows, read_sites};
use csv::ByteRecord;
use plum_base::{
    MOST_AREAS, MOST_TARGETS, Name, NoMemory, TargetSite, areas_come_in_order, has_name, is_among,
};
use std::alloc::Global;

/// The fields of a row, by column.
#[derive(Clone, Copy)]
struct TargetFields<'a> {
    name: &'a [u8],
    area: &'a [u8],
    x: &'a [u8],
    y: &'a [u8],
    factor: &'a [u8],
}

/// What number fields spell.
#[derive(Clone, Copy)]
struct TargetNumbers {
    x: i32,
    y: i32,
    factor: i32,
}

/// The fields of a row of five.
fn target_fields(row: &ByteRecord) -> Option<TargetFields<'_>>
    ensures fields { IfSome result (λ f. fields_of row.now
        ≡ f.name.now ∷ f.area.now ∷ f.x.now ∷ f.y.now ∷ f.factor.now ∷ []) }
    ensures none { IfNone result (length (fields_of row.now) ≢ length target_header) }
{
    if row.len() != 5 {
        return None;
    }
    Some(TargetFields {
        name: row.get(0)?,
        area: row.get(1)?,
        x: row.get(2)?,
        y: row.get(3)?,
        factor: row.get(4)?,
    })
}

/// The numbers of the fields behind the names, if each is a number field.
fn target_numbers(fields: &TargetFields<'_>) -> Option<TargetNumbers>
    ensures numbers { let row = fields.now.x.now ∷ fields.now.y.now ∷ fields.now.factor.now ∷ [] in
        IfSome result (λ n. AllZip Spells row (n.x ∷ n.y ∷ n.factor ∷ [])) }
    ensures none { let row = fields.now.x.now ∷ fields.now.y.now ∷ fields.now.factor.now ∷ [] in
        IfNone result (¬ All IsNumber row) }
{
    Some(TargetNumbers {
        x: number_read(fields.x)?,
        y: number_read(fields.y)?,
        factor: number_read(fields.factor)?,
    })
}

/// The target of names that are names and numbers that are in their ranges.
fn target_of(fields: &TargetFields<'_>, numbers: &TargetNumbers) -> Option<TargetSite>
    ensures target { IfSome result (λ t. (t.name ≡ fields.now.name.now)
        × (t.area ≡ fields.now.area.now) × (t.at.x ≡ numbers.now.x) × (t.at.y ≡ numbers.now.y)
        × (t.factor.0 ≡ numbers.now.factor)
        × AreTargetFields t.name t.area t.at.x t.at.y t.factor.0) }
    ensures none { IfNone result (¬ AreTargetFields fields.now.name.now fields.now.area.now
        numbers.now.x numbers.now.y numbers.now.factor) }
{
    let name = Name::read(fields.name)?;
    let area = Name::read(fields.area)?;
    let at = place(numbers.x, numbers.y)?;
    let factor = factor(numbers.factor)?;
    Some(TargetSite {
        name,
        area,
        at,
        factor,
    })
}

/// The target of the row of that number, as far as the row alone tells.
fn target_of_row(row: &ByteRecord, number: u32) -> Result<TargetSite, SiteFault>
    ensures target { IfOk result (StatesTarget (fields_of row.now)) }
    ensures fault { IfErr result (λ f. (before : List TargetSite)
        → IsFirstTargetFault before (fields_of row.now) number f) }
{
    let Some(fields) = target_fields(row) else {
        return Err(SiteFault::Columns(number));
    };
    let Some(numbers) = target_numbers(&fields) else {
        return Err(SiteFault::Number(number));
    };
    let Some(target) = target_of(&fields, &numbers) else {
        return Err(SiteFault::Range(number));
    };
    Ok(target)
}

/// Whether the areas, with that of the target, are no more than there may be.
fn has_room(areas: &[Name], target: &TargetSite) -> bool
    ensures { (before : List TargetSite) → areas.now ≡ areas_of before
        → length areas.now ≤ most_areas
        → IsTrue result ↔ (length (areas_of (before ++ target.now ∷ [])) ≤ most_areas) }
{
    areas_come_in_order();
    is_among(areas, &target.area) || areas.len() < MOST_AREAS
}

/// Adds the area of a target, unless it is there.
fn add_area(areas: &mut Vec<Name>, target: &TargetSite) -> Result<(), NoMemory>
    ensures { (before : List TargetSite) → areas.old.items ≡ areas_of before
        → OnOk result (areas.new.items ≡ areas_of (before ++ target.now ∷ [])) }
{
    areas_come_in_order();
    if !is_among(areas.as_slice(), &target.area) {
        areas.push(target.area.copy())?;
    }
    Ok(())
}

/// The target of a row behind those of the rows before, and behind their areas. A centre reads its
/// files once, so that a comparison with each target before is fast enough.
fn next_target(
    before: &[TargetSite],
    areas: &[Name],
    row: &ByteRecord,
    number: u32,
) -> Result<TargetSite, SiteFault>
    requires all { areas.now ≡ areas_of before.now }
    requires few { length areas.now ≤ most_areas }
    ensures target { IfOk result (λ t. StatesTarget (fields_of row.now) t
        × (¬ IsNameTaken before.now t.name) × (length before.now < most)
        × (length (areas_of (before.now ++ t ∷ [])) ≤ most_areas)) }
    ensures fault { IfErr result (IsFirstTargetFault before.now (fields_of row.now) number) }
{
    let target = target_of_row(row, number)?;
    if has_name(before, &target.name) {
        return Err(SiteFault::Twice(number));
    }
    if before.len() >= MOST_TARGETS || !has_room(areas, &target) {
        return Err(SiteFault::TooMany(number));
    }
    Ok(target)
}

/// The targets of the rows so far, and their areas.
#[derive(Drop)]
struct TargetRows {
    targets: Vec<TargetSite>,
    areas: Vec<Name>,
}

impl SiteRows for TargetRows {
    type Site = TargetSite;

    ghost MOST = { most };

    const MOST: u16 = MOST_TARGETS as u16;

    ghost header = { target_header };

    ghost states = { StatesTarget };

    ghost are_lawful = { AreTargets };

    ghost is_first_fault = { IsFirstTargetFault };

    ghost sites = { λ rows. rows.targets.items };

    ghost is_sound = { λ rows. AreTargets rows.targets.items
        × (rows.areas.items ≡ areas_of rows.targets.items) };

    fn new(alloc: Global) -> TargetRows {
        TargetRows {
            targets: Vec::new(alloc),
            areas: Vec::new(alloc),
        }
    }

    fn is_header(row: &ByteRecord) -> bool {
        target_fields(row).is_some_and(|f| {
            f.name == b"name".as_slice()
                && f.area == b"area".as_slice()
                && f.x == b"x".as_slice()
                && f.y == b"y".as_slice()
                && f.factor == b"factor".as_slice()
        })
    }

    fn add(&mut self, row: &ByteRecord, number: u32) -> Result<(), SitesRefusal> {
        let target = next_target(self.targets.as_slice(), self.areas.as_slice(), row, number)?;
        add_area(&mut self.areas, &target)?;
        self.targets.push(target)?;
        Ok(())
    }

    ghost sound_is_lawful = { λ rows sound. sound.0 };

    ghost lawful_is_few = { λ xs lawful. lawful.few };

    ghost most_fits = { refl };
}

/// The targets that the bytes of a target file state, or what is wrong first with them.
pub fn read_targets(alloc: Global, bytes: &[u8]) -> Result<Vec<TargetSite>, SitesRefusal>
    ensures targets { IfOk result (λ v. AreTargetsOf bytes.now v.items) }
    ensures lawful { IfOk result (λ v. AreTargets v.items) }
    ensures fault { IfErr result (λ e. IfFault e (IsTargetFaultOf bytes.now)) }
{
    read_sites::<TargetRows>(alloc, bytes).map(|rows| rows.targets)
}
