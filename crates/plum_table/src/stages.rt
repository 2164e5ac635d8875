//! The stages of the filter.

ghost use Rattle.std.specs.Prelude.{◌≡◌, ◌≤◌, length, All, IfOk};
ghost use Rattle.std.specs.Result.{result_map_both};
ghost use Rattle.toml.specs.Data.{as_table};
ghost use Rattle.toml.specs.View.{table_view};
ghost use Rattle.plum_base.specs.Cascade.{MOST_STAGES as most, IsCoefficient, IsStage};
ghost use Rattle.plum_table.specs.Keys.{stage_key};
ghost use Rattle.plum_table.specs.Kinds.{walk_from};
ghost use Rattle.plum_table.specs.Values.{AreAll, values_as};
ghost use Rattle.plum_table.specs.Stages.{coefficient_at, rounding_of, stage_of, stages_of};

use crate::fault::{Field, SetupFault, SetupKey};
use crate::kinds;
use arrayvec::ArrayVec;
use plum_base::{Cascade, GREATEST_COEFFICIENT, MOST_STAGES, Rounding, STAGE_Q, Stage};
use toml::{Table, Value};

/// A coefficient of the stage with this number, from 0.
fn coefficient(stage: &Table, field: Field, number: u8) -> Result<i32, SetupFault>
    ensures value { result ≡ coefficient_at (table_view stage.now) (stage_key field number) }
    ensures range { IfOk result IsCoefficient }
{
    let key = SetupKey::of_stage(field, number);
    let end = GREATEST_COEFFICIENT as i64;
    Ok(kinds::integer(stage, key, -end, end)? as i32)
}

/// The rounding that has this name.
fn rounding(name: &str, key: SetupKey) -> Result<Rounding, SetupFault>
    ensures { result ≡ rounding_of key name.now }
{
    match name {
        "floor" => Ok(Rounding::Floor),
        "nearest" => Ok(Rounding::Nearest),
        _ => Err(SetupFault::Range(key)),
    }
}

/// The stage with this number, from 0.
fn read_stage(stage: &Table, number: u8) -> Result<Stage, SetupFault>
    ensures value { result ≡ stage_of number (table_view stage.now) }
    ensures range { IfOk result IsStage }
{
    let b0 = coefficient(stage, Field::B0, number)?;
    let b1 = coefficient(stage, Field::B1, number)?;
    let b2 = coefficient(stage, Field::B2, number)?;
    let a1 = coefficient(stage, Field::A1, number)?;
    let a2 = coefficient(stage, Field::A2, number)?;
    let q = kinds::natural(stage, SetupKey::of_stage(Field::Q, number), STAGE_Q)? as u8;
    let key = SetupKey::of_stage(Field::Round, number);
    let round = rounding(kinds::text(stage, key)?, key)?;
    Ok(Stage {
        b0,
        b1,
        b2,
        a1,
        a2,
        q,
        round,
    })
}

/// The stages of these tables.
fn read_stages(tables: &[Value]) -> Result<ArrayVec<Stage, MOST_STAGES>, SetupFault>
    requires few { length tables.now ≤ most }
    requires tables { AreAll as_table tables.now }
    ensures value { result_map_both (λ s. s.items) (λ e. e) result
        ≡ walk_from stage_of 0 (values_as as_table tables.now) }
    ensures range { IfOk result (λ s. All IsStage s.items) }
    ensures count { IfOk result (λ s. length s.items ≡ length tables.now) }
{
    let mut stages = ArrayVec::new();
    for (k, value) in tables.iter().enumerate() {
        stages.push(read_stage(value.as_table().unwrap(), k as u8)?);
    }
    Ok(stages)
}

/// The cascade of stages that are all in range.
fn cascade_of(stages: ArrayVec<Stage, MOST_STAGES>) -> Cascade
    requires some { 1 ≤ length stages.items }
    requires range { All IsStage stages.items }
    ensures { result ≡ stages.items }
{
    Cascade::new(stages).unwrap()
}

/// The filter of the file.
pub fn read_cascade(file: &Table) -> Result<Cascade, SetupFault>
    ensures { result ≡ stages_of (table_view file.now) }
{
    let tables = kinds::tables(file, SetupKey::of(Field::Stages), MOST_STAGES)?;
    Ok(cascade_of(read_stages(tables)?))
}
