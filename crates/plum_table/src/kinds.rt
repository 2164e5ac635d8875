//! What stands at a key, by its kind.

ghost use Rattle.std.specs.Prelude.{◌≡◌, ◌↔◌, ◌≤◌, ◌≤ℤ◌, length, option_map, Some, IfOk, IsTrue};
ghost use Rattle.std.specs.Result.{result_map_both};
ghost use Rattle.toml.specs.Data.{as_integer, as_str, as_table, as_array, get_member};
ghost use Rattle.toml.specs.View.{view, table_view, array_view};
ghost use Rattle.plum_base.specs.Bounds.{IsWithin};
ghost use Rattle.plum_table.specs.Keys.{name_of};
ghost use Rattle.plum_table.specs.Kinds.{value_at, integer_at, natural_at, array_at};
ghost use Rattle.plum_table.specs.Values.{AreAll, values_as};

use crate::fault::{SetupFault, SetupKey};
use plum_base::Bounds;
use toml::value::Array;
use toml::{Table, Value};

/// What stands at a key, if the table has it.
fn find(table: &Table, key: SetupKey) -> Option<&Value>
    ensures { option_map (λ v. view v.now) result
        ≡ get_member (name_of key.field) (table_view table.now) }
{
    table.get(key.field.name())
}

/// The value at a key, of whatever kind.
fn present(table: &Table, key: SetupKey) -> Result<&Value, SetupFault>
    ensures { result_map_both (λ v. view v.now) (λ e. e) result
        ≡ value_at Some (table_view table.now) key }
{
    find(table, key).ok_or(SetupFault::Missing(key))
}

/// The integer at a key, of a range.
pub fn integer(table: &Table, key: SetupKey, low: i64, high: i64) -> Result<i64, SetupFault>
    ensures value { result ≡ integer_at (table_view table.now) key low high }
    ensures range { IfOk result (λ z. (low ≤ℤ z) × (z ≤ℤ high)) }
{
    match present(table, key)?.as_integer() {
        Some(z) if low <= z && z <= high => Ok(z),
        Some(_) => Err(SetupFault::Range(key)),
        None => Err(SetupFault::Kind(key)),
    }
}

/// The text at a key.
pub fn text(table: &Table, key: SetupKey) -> Result<&str, SetupFault>
    ensures { result_map_both (λ s. s.now) (λ e. e) result
        ≡ value_at as_str (table_view table.now) key }
{
    present(table, key)?.as_str().ok_or(SetupFault::Kind(key))
}

/// The table at a key.
pub fn table(table: &Table, key: SetupKey) -> Result<&Table, SetupFault>
    ensures { result_map_both (λ t. table_view t.now) (λ e. e) result
        ≡ value_at as_table (table_view table.now) key }
{
    present(table, key)?.as_table().ok_or(SetupFault::Kind(key))
}

/// The natural number at a key, within bounds.
pub fn natural(table: &Table, key: SetupKey, bounds: Bounds) -> Result<u32, SetupFault>
    ensures value { result ≡ natural_at (table_view table.now) key bounds }
    ensures range { IfOk result (IsWithin bounds) }
{
    let low = i64::from(bounds.low);
    let high = i64::from(bounds.high);
    Ok(integer(table, key, low, high)?.unsigned_abs() as u32)
}

/// The array at a key.
fn array(table: &Table, key: SetupKey) -> Result<&Array, SetupFault>
    ensures { result_map_both (λ a. array_view a.now) (λ e. e) result
        ≡ value_at as_array (table_view table.now) key }
{
    present(table, key)?.as_array().ok_or(SetupFault::Kind(key))
}

/// Whether all items are tables.
fn are_tables(items: &[Value]) -> bool
    ensures { IsTrue result ↔ AreAll as_table items.now }
{
    items.iter().all(|item| item.is_table())
}

/// Whether all items are integers.
fn are_integers(items: &[Value]) -> bool
    ensures { IsTrue result ↔ AreAll as_integer items.now }
{
    items.iter().all(|item| item.is_integer())
}

/// Whether there are one to `most` of them.
fn is_count(count: usize, most: usize) -> bool
    ensures { IsTrue result ↔ ((1 ≤ count) × (count ≤ most)) }
{
    1 <= count && count <= most
}

/// The array of tables at a key, of one to `most` of them.
pub fn tables(table: &Table, key: SetupKey, most: usize) -> Result<&[Value], SetupFault>
    ensures value { result_map_both (λ vs. values_as as_table vs.now) (λ e. e) result
        ≡ array_at as_table (table_view table.now) key most }
    ensures all { IfOk result (λ vs. AreAll as_table vs.now) }
    ensures count { IfOk result (λ vs. (1 ≤ length vs.now) × (length vs.now ≤ most)) }
{
    let items = array(table, key)?.as_slice();
    if !are_tables(items) {
        return Err(SetupFault::Kind(key));
    }
    if !is_count(items.len(), most) {
        return Err(SetupFault::Range(key));
    }
    Ok(items)
}

/// The array of integers at a key, of one to `most` of them.
pub fn integers(table: &Table, key: SetupKey, most: usize) -> Result<&[Value], SetupFault>
    ensures value { result_map_both (λ vs. values_as as_integer vs.now) (λ e. e) result
        ≡ array_at as_integer (table_view table.now) key most }
    ensures all { IfOk result (λ vs. AreAll as_integer vs.now) }
    ensures count { IfOk result (λ vs. (1 ≤ length vs.now) × (length vs.now ≤ most)) }
{
    let items = array(table, key)?.as_slice();
    if !are_integers(items) {
        return Err(SetupFault::Kind(key));
    }
    if !is_count(items.len(), most) {
        return Err(SetupFault::Range(key));
    }
    Ok(items)
}
