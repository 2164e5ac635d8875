//! The rules of the alerts.

ghost use Rattle.std.specs.Prelude.{◌≡◌, IfOk};
ghost use Rattle.toml.specs.View.{table_view};
ghost use Rattle.plum_base.specs.Setup.{AreRules, IsCancelClass};
ghost use Rattle.plum_table.specs.Rules.{class_at, cancel_at, rules_of};

use crate::fault::{Field, SetupFault, SetupKey};
use crate::kinds;
use plum_base::{CALM, Class, Rules};
use plum_scale::class_read;
use toml::Table;

/// The class at a key.
fn read_class(rules: &Table, key: SetupKey) -> Result<Class, SetupFault>
    ensures { result ≡ class_at (table_view rules.now) key }
{
    match class_read(kinds::text(rules, key)?.as_bytes()) {
        Some(class) => Ok(class),
        None => Err(SetupFault::Range(key)),
    }
}

/// The class below which readings are calm. It is not above the raise class.
fn read_cancel(rules: &Table, raise: Class) -> Result<Class, SetupFault>
    ensures value { result ≡ cancel_at (table_view rules.now) raise }
    ensures range { IfOk result (IsCancelClass raise) }
{
    let key = SetupKey::of(Field::Cancel);
    let cancel = read_class(rules, key)?;
    if cancel > raise {
        return Err(SetupFault::Range(key));
    }
    Ok(cancel)
}

/// When an alert is raised and cancelled.
pub fn read_rules(rules: &Table) -> Result<Rules, SetupFault>
    ensures value { result ≡ rules_of (table_view rules.now) }
    ensures range { IfOk result AreRules }
{
    let raise = read_class(rules, SetupKey::of(Field::Raise))?;
    let cancel = read_cancel(rules, raise)?;
    let calm = kinds::natural(rules, SetupKey::of(Field::Calm), CALM)? as u16;
    Ok(Rules {
        raise,
        cancel,
        calm,
    })
}
