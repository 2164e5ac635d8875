//! The threshold table.

ghost use Rattle.std.specs.Prelude.{◌≡◌, ◌≤◌, length, All, IfOk};
ghost use Rattle.std.specs.Result.{result_map_both};
ghost use Rattle.toml.specs.Data.{as_integer};
ghost use Rattle.toml.specs.View.{table_view};
ghost use Rattle.plum_base.specs.Levels.{GREATEST_AMPLITUDE as greatest, MOST_LEVELS as most};
ghost use Rattle.plum_base.specs.Levels.{IsFactor, StartsAtZero, IsWithinUpTo};
ghost use Rattle.plum_table.specs.Kinds.{walk_from};
ghost use Rattle.plum_table.specs.Values.{AreAll, values_as};
ghost use Rattle.plum_table.specs.Levels.{threshold_of, thresholds_of, in_order, levels_of};

use crate::fault::{Field, SetupFault, SetupKey};
use crate::kinds;
use arrayvec::ArrayVec;
use plum_base::{GREATEST_AMPLITUDE, GREATEST_FACTOR, LevelFault, Levels, MOST_LEVELS, Tenths};
use toml::{Table, Value};

/// A threshold in its range.
fn threshold(z: i64) -> Result<u64, SetupFault>
    ensures value { result ≡ threshold_of z }
    ensures range { IfOk result (λ t. t ≤ greatest) }
{
    if 0 <= z && z <= GREATEST_AMPLITUDE as i64 {
        Ok(z.unsigned_abs())
    } else {
        Err(SetupFault::Range(SetupKey::of(Field::Thresholds)))
    }
}

/// The thresholds of these integers.
fn read_thresholds(values: &[Value]) -> Result<ArrayVec<u64, MOST_LEVELS>, SetupFault>
    requires few { length values.now ≤ most }
    requires integers { AreAll as_integer values.now }
    ensures value { result_map_both (λ t. t.items) (λ e. e) result
        ≡ walk_from (λ _ z. threshold_of z) 0 (values_as as_integer values.now) }
    ensures range { IfOk result (λ t. All (λ x. x ≤ greatest) t.items) }
    ensures count { IfOk result (λ t. length t.items ≡ length values.now) }
{
    let mut thresholds = ArrayVec::new();
    for value in values {
        thresholds.push(threshold(value.as_integer().unwrap())?);
    }
    Ok(thresholds)
}

/// The thresholds, each in its range and the first 0.
fn thresholds_in(levels: &Table) -> Result<ArrayVec<u64, MOST_LEVELS>, SetupFault>
    ensures value { result_map_both (λ t. t.items) (λ e. e) result
        ≡ thresholds_of (table_view levels.now) }
    ensures start { IfOk result (λ t. StartsAtZero t.items) }
    ensures within { IfOk result (λ t. IsWithinUpTo t.items (length t.items)) }
{
    let key = SetupKey::of(Field::Thresholds);
    let thresholds = read_thresholds(kinds::integers(levels, key, MOST_LEVELS)?)?;
    if thresholds.as_slice()[0] != 0 {
        return Err(SetupFault::Range(key));
    }
    Ok(thresholds)
}

/// The table of thresholds in range, if each is greater than the one before it.
fn in_order(thresholds: ArrayVec<u64, MOST_LEVELS>, base: Tenths) -> Result<Levels, SetupFault>
    requires start { StartsAtZero thresholds.items }
    requires within { IsWithinUpTo thresholds.items (length thresholds.items) }
    requires base { IsFactor base }
    ensures { result ≡ in_order base thresholds.items }
{
    match Levels::new(thresholds, base) {
        Ok(levels) => Ok(levels),
        Err(LevelFault::Order(i)) => Err(SetupFault::Order(u16::from(i))),
        Err(_) => unreachable!(),
    }
}

/// The threshold table.
pub fn read_levels(levels: &Table) -> Result<Levels, SetupFault>
    ensures { result ≡ levels_of (table_view levels.now) }
{
    let end = GREATEST_FACTOR as i64;
    let base = kinds::integer(levels, SetupKey::of(Field::Base), -end, end)?;
    in_order(thresholds_in(levels)?, Tenths(base as i16))
}
