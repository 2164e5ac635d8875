//! The end of a round: all that the lanes sent is gathered and published.

ghost use Rattle.std.specs.Prelude.{◌≡◌, ◌<◌, true, IfOk, OnOk, OnErr};
ghost use Rattle.plum_lanes.specs.Lanes.{all_sent};
ghost use Rattle.plum_lanes.specs.Opening.{Opening};
ghost use Rattle.plum_lanes.specs.Rounds.{AreWhole};
ghost use Rattle.plum_snap.specs.Fronts.{MOST_ENTRIES};
ghost use Rattle.plum_centre.specs.Rounds.{StayWhole, IsDrained, IfEmpty, IsRoundClosed};

use crate::centre::Centre;
use crate::fed::Fed;
use crate::feeder::Feeder;
use plum_base::NoMemory;
use plum_lanes::Lane;
use plum_snap::Receipt;
use std::sync::Wait;

/// A turn, after the round of the lanes was closed: what they sent bounds what is gathered, and
/// where the turn finds nothing, it has found all that they sent.
fn turn_of_all<R: Wait>(rt: &R, lanes: &mut [Lane], feeder: &mut Feeder) -> Result<Fed, NoMemory>
    requires whole { (opening : Opening) × AreWhole opening lanes.old feeder.old.gather }
    requires few { all_sent lanes.old < MOST_ENTRIES }
    ensures stay { StayWhole lanes.old feeder.old lanes.new feeder.new }
    ensures empty { IfOk result (λ fed. IfEmpty fed (IsDrained lanes.new feeder.new)) }
    ensures err { OnErr result (feeder.new.refused ≡ true) }
{
    feeder.settle(lanes);
    feeder.turn(rt)
}

/// Turns until nothing is queued, and nothing is pending.
fn drain<R: Wait>(rt: &R, lanes: &mut [Lane], feeder: &mut Feeder) -> Result<(), NoMemory>
    requires whole { (opening : Opening) × AreWhole opening lanes.old feeder.old.gather }
    requires few { all_sent lanes.old < MOST_ENTRIES }
    ensures stay { StayWhole lanes.old feeder.old lanes.new feeder.new }
    ensures drained { OnOk result (IsDrained lanes.new feeder.new) }
    ensures err { OnErr result (feeder.new.refused ≡ true) }
{
    for _ in rt.forever() {
        match turn_of_all(rt, lanes, feeder)? {
            Fed::One | Fed::Published => {}
            Fed::Empty => return Ok(()),
        }
    }
    unreachable!()
}

/// Closes a round of these lanes.
fn close<R: Wait>(rt: &R, lanes: &mut [Lane], feeder: &mut Feeder) -> Result<Receipt, NoMemory>
    requires whole { (opening : Opening) × AreWhole opening lanes.old feeder.old.gather }
    requires few { all_sent lanes.old < MOST_ENTRIES }
    ensures stay { StayWhole lanes.old feeder.old lanes.new feeder.new }
    ensures closed { IfOk result (IsRoundClosed lanes.new feeder.new) }
    ensures err { OnErr result (feeder.new.refused ≡ true) }
{
    drain(rt, lanes, feeder)?;
    feeder.settle(lanes);
    Ok(feeder.receipt())
}

impl Centre {
    ghost use Rattle.plum_centre.specs.Centre.{CentreId, IsWhole};

    /// Closes a round: all that the lanes sent is gathered and published, and the receipt is of all
    /// of it.
    ///
    /// After a refusal each later turn of the feeder is refused.
    pub fn close_round<R: Wait>(&mut self, rt: &R) -> Result<Receipt, NoMemory>
        requires whole { (id : CentreId) × IsWhole id self.old }
        requires few { all_sent self.old.lanes.items < MOST_ENTRIES }
        ensures whole { (id : CentreId) → IsWhole id self.old → IsWhole id self.new }
        ensures stay { StayWhole self.old.lanes.items self.old.feeder
            self.new.lanes.items self.new.feeder }
        ensures closed { IfOk result (IsRoundClosed self.new.lanes.items self.new.feeder) }
        ensures err { OnErr result (self.new.feeder.refused ≡ true) }
        ensures sessions { self.new.sessions ≡ self.old.sessions }
    {
        close(rt, self.lanes.as_mut_slice(), &mut self.feeder)
    }
}
