//! The desk of an area.

ghost use Rattle.std.specs.Prelude.{◌≡◌, ◌+◌, ◌<◌, ◌≤◌, ◌&&◌, if◌then◌else◌, List, [], ◌∷◌, ◌++◌};
ghost use Rattle.plum_base.specs.declared.answers.Reading.{Reading};
ghost use Rattle.plum_base.specs.declared.rules.Rules.{Rules};
ghost use Rattle.plum_base.specs.Setup.{AreDeskRules};
ghost use Rattle.plum_alert.specs.Alerts.{alerts_of};
ghost use Rattle.plum_alert.specs.Readings.{class_of_reading, is_below, reaches};
ghost use Rattle.plum_alert.specs.Desk.{StandsFor, Tells};

use crate::readings::{above, class_of_reading, is_below, reaches};
use plum_base::{Alert, Class, Reading, Rules};
use std::marker::Model;

/// What stands in an area.
#[derive(Clone, Copy)]
enum Standing {
    /// Nothing; `reached` says whether the last reading reached the raise class.
    Nothing { reached: bool },
    /// An alert at this class; `calm` readings in a row are below the cancel class, up to the last.
    AlertAt { class: Class, calm: u16 },
}

/// The desk of an area. Of the readings that it was given it has what stands, and no more.
#[derive(Drop)]
pub struct Desk {
    rules: Rules,
    standing: Standing,
}

impl Model for Desk {
    ghost use Rattle.plum_base.specs.Setup.{AreDeskRules};
    ghost use Rattle.plum_alert.specs.Desk.{DeskView, IsWithin};

    ghost Value = { DeskView };

    ghost view = { λ d. record { rules = d.rules; standing = d.standing } };

    ghost invariant = { λ d. AreDeskRules d.rules × IsWithin d.rules d.standing };
}

impl Desk {
    /// The desk of an area that had no reading yet.
    pub fn new(rules: &Rules) -> Desk
        requires { AreDeskRules rules.now }
        ensures { StandsFor result rules.now [] }
    {
        Desk {
            rules: *rules,
            standing: Standing::Nothing { reached: false },
        }
    }

    /// The alert that the next reading gives, or none.
    pub fn next(&mut self, reading: &Reading) -> Option<Alert>
        ensures stands { (rules : Rules) (given : List Reading)
            → StandsFor self.old rules given
            → StandsFor self.new rules (given ++ reading.now ∷ []) }
        ensures alert { (rules : Rules) (given : List Reading)
            → StandsFor self.old rules given
            → alerts_of rules (given ++ reading.now ∷ [])
            ≡ alerts_of rules given ++ result ∷ [] }
    {
        let class = class_of_reading(reading);
        match self.standing {
            Standing::Nothing { reached } => self.next_at_nothing(reached, class),
            Standing::AlertAt {
                class: stands,
                calm,
            } => self.next_at_alert(stands, calm, class),
        }
    }

    /// The alert that a reading of this class gives, or none, where nothing stands.
    fn next_at_nothing(&mut self, reached: bool, class: Option<Class>) -> Option<Alert>
        requires { self.old.standing ≡ Standing.Nothing reached }
        ensures { (rules : Rules) (given : List Reading) (reading : Reading)
            → StandsFor self.old rules given → class ≡ class_of_reading reading
            → Tells rules given reading self.new result }
    {
        match raised(self.rules.raise, reached, class) {
            Some(class) => {
                self.standing = Standing::AlertAt { class, calm: 0 };
                Some(Alert::Raise(class))
            }
            None => {
                let reached = reaches(class, self.rules.raise);
                self.standing = Standing::Nothing { reached };
                None
            }
        }
    }

    /// The alert that a reading of this class gives, or none, where an alert stands.
    fn next_at_alert(&mut self, stands: Class, calm: u16, class: Option<Class>) -> Option<Alert>
        requires { self.old.standing ≡ Standing.AlertAt stands calm }
        ensures { (rules : Rules) (given : List Reading) (reading : Reading)
            → StandsFor self.old rules given → class ≡ class_of_reading reading
            → Tells rules given reading self.new result }
    {
        let calm = calm_in_a_row(self.rules.cancel, calm, class);
        match above(class, stands) {
            Some(class) => {
                self.standing = Standing::AlertAt { class, calm };
                Some(Alert::Upgrade(class))
            }
            None if calm == self.rules.calm => {
                self.standing = Standing::Nothing { reached: false };
                Some(Alert::Cancel)
            }
            None => {
                self.standing = Standing::AlertAt {
                    class: stands,
                    calm,
                };
                None
            }
        }
    }
}

/// The class of a reading where it raises an alert, else none. `reached` says whether the reading
/// before it reached the raise class.
fn raised(raise: Class, reached: bool, class: Option<Class>) -> Option<Class>
    ensures { result ≡ (if reaches class raise && reached then class else None) }
{
    class.filter(|class| reached && *class >= raise)
}

/// How many readings in a row are calm with one of this class, where `calm` were so before it.
fn calm_in_a_row(cancel: Class, calm: u16, class: Option<Class>) -> u16
    requires { calm < u16.MAX }
    ensures { result ≡ (if is_below class cancel then calm + 1 else 0) }
{
    if is_below(class, cancel) { calm + 1 } else { 0 }
}
