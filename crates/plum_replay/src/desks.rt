//! The desks of all areas.

ghost use Rattle.std.specs.Prelude.{◌≡◌, ℕ, List, [], length, IfOk, OnOk};
ghost use Rattle.plum_base.specs.declared.answers.Reading.{Reading};
ghost use Rattle.plum_base.specs.declared.rules.Rules.{Rules};
ghost use Rattle.plum_base.specs.Setup.{AreDeskRules};
ghost use Rattle.plum_replay.specs.Progress.{AreDesks, AreNext, given_with};

use plum_alert::Desk;
use plum_base::{Alert, NoMemory, Reading, Rules};
use std::alloc::Global;

/// So many desks, none of which was given a reading.
pub fn new_desks(alloc: Global, rules: &Rules, count: u16) -> Result<Vec<Desk>, NoMemory>
    requires { AreDeskRules rules.now }
    ensures count { IfOk result (λ desks. length desks.items ≡ count) }
    ensures start { IfOk result (λ desks. AreDesks desks.items rules.now (λ _. [])) }
{
    let mut desks = Vec::new(alloc);
    for _ in 0..count {
        desks.push(Desk::new(rules))?;
    }
    Ok(desks)
}

/// Gives each desk the next reading of its area: the alert that it gives, or none, for each.
pub fn next_alerts(
    alloc: Global,
    desks: &mut Vec<Desk>,
    readings: &[Reading],
) -> Result<Vec<Option<Alert>>, NoMemory>
    requires one_each { length readings.now ≡ length desks.old.items }
    ensures count { length desks.new.items ≡ length desks.old.items }
    ensures one_each { IfOk result (λ alerts. length alerts.items ≡ length readings.now) }
    ensures desks { (rules : Rules) (given : ℕ → List Reading)
        → AreDesks desks.old.items rules given
        → OnOk result (AreDesks desks.new.items rules (given_with given readings.now)) }
    ensures alerts { (rules : Rules) (given : ℕ → List Reading)
        → AreDesks desks.old.items rules given
        → IfOk result (λ alerts. AreNext rules given readings.now alerts.items) }
{
    let mut alerts = Vec::new(alloc);
    for (a, reading) in readings.iter().enumerate() {
        let alert = desks[a].next(reading);
        alerts.push(alert)?;
    }
    Ok(alerts)
}
