//! What a replay keeps between its rounds, beside the centre.

ghost use Rattle.std.specs.Prelude.{◌≡◌, ◌+◌, ◌-◌, ◌≤◌, ℕ, List, [], length, IfOk, OnOk};
ghost use Rattle.plum_base.specs.Counts.{AddUp};
ghost use Rattle.plum_base.specs.Sites.{areas_of};
ghost use Rattle.plum_base.specs.declared.answers.Reading.{Reading};
ghost use Rattle.plum_base.specs.declared.rules.Rules.{Rules};
ghost use Rattle.plum_packet.specs.Reading.{MOST_RECORDS};

use crate::areas::targets_by_area;
use crate::desks::{new_desks, next_alerts};
use crate::section::{Section, put_section};
use crate::totals::Totals;
use plum_alert::Desk;
use plum_base::{Bytes, Counts, NoMemory, Reading, RefusedBody, Setup, Sites, TargetNo};
use std::alloc::Global;

/// For each area its targets and a desk, and how many segments were worked on, with the counts of
/// all of them.
#[derive(Drop)]
pub struct Progress {
    by_area: Vec<Vec<TargetNo>>,
    desks: Vec<Desk>,
    pub segments: u32,
    pub counts: Counts,
    pub ghost adds_up: { AddUp counts },
}

/// What the section of a mark tells of its segment.
#[derive(Drop)]
pub struct Counted {
    pub counts: Counts,
    /// In the order of the records.
    pub refused: Vec<RefusedBody>,
}

/// The counts of a segment of so many packets, of which so many are kept, and so many refused
/// bodies.
fn counts_of(packets: u32, kept: u32, refused: u32) -> Counts
    requires kept { kept ≤ packets }
    requires few { packets + refused ≤ MOST_RECORDS }
    ensures value { result ≡ record {
      bodies = packets + refused;
      kept = kept;
      repeats = packets - kept;
      refused = refused;
    } }
    ensures sums { AddUp result }
{
    Counts {
        bodies: packets + refused,
        kept,
        repeats: packets - kept,
        refused,
    }
}

/// The sums of two counts.
fn sum_of(a: &Counts, b: &Counts) -> Counts
    requires a { AddUp a.now }
    requires b { AddUp b.now }
    requires few { a.now.bodies + b.now.bodies ≤ MOST_RECORDS }
    ensures { result ≡ record {
      bodies = a.now.bodies + b.now.bodies;
      kept = a.now.kept + b.now.kept;
      repeats = a.now.repeats + b.now.repeats;
      refused = a.now.refused + b.now.refused;
    } }
{
    Counts {
        bodies: a.bodies + b.bodies,
        kept: a.kept + b.kept,
        repeats: a.repeats + b.repeats,
        refused: a.refused + b.refused,
    }
}

impl Progress {
    ghost use Rattle.plum_replay.specs.Progress.{IsProgressOf, AreDesks, TellsMark};
    ghost use Rattle.plum_replay.specs.Replayed.{counts_in_all};

    /// Nothing was worked on. It takes the memory of its targets by area and of its desks here.
    pub fn new(alloc: Global, sites: &Sites, setup: &Setup) -> Result<Progress, NoMemory>
        ensures of { IfOk result (λ progress. IsProgressOf progress sites.now) }
        ensures nothing { IfOk result (λ progress. (progress.segments ≡ 0)
            × (progress.counts ≡ record { bodies = 0; kept = 0; repeats = 0; refused = 0 })) }
        ensures desks { IfOk result (λ progress.
            AreDesks progress.desks.items setup.now.rules (λ _. [])) }
    {
        Ok(Progress {
            by_area: targets_by_area(alloc, sites)?,
            desks: new_desks(alloc, &setup.rules, sites.areas())?,
            segments: 0,
            counts: Counts {
                bodies: 0,
                kept: 0,
                repeats: 0,
                refused: 0,
            },
        })
    }

    /// One segment more was worked on, of so many packets, of which so many are kept, and these
    /// refused bodies.
    pub fn count(&mut self, packets: u32, kept: u32, refused: Vec<RefusedBody>) -> Counted
        requires kept { kept ≤ packets }
        requires few { self.old.counts.bodies + (packets + length refused.items) ≤ MOST_RECORDS }
        requires few_segments { self.old.segments ≤ MOST_RECORDS }
        ensures counted { result.counts ≡ record {
          bodies = packets + length refused.items;
          kept = kept;
          repeats = packets - kept;
          refused = length refused.items;
        } }
        ensures refused { result.refused ≡ refused }
        ensures summed { self.new.counts ≡ record {
          bodies = self.old.counts.bodies + result.counts.bodies;
          kept = self.old.counts.kept + result.counts.kept;
          repeats = self.old.counts.repeats + result.counts.repeats;
          refused = self.old.counts.refused + result.counts.refused;
        } }
        ensures segments { self.new.segments ≡ self.old.segments + 1 }
        ensures by_area { self.new.by_area ≡ self.old.by_area }
        ensures desks { self.new.desks ≡ self.old.desks }
    {
        let counts = counts_of(packets, kept, refused.len() as u32);
        self.segments += 1;
        self.counts = sum_of(&self.counts, &counts);
        Counted { counts, refused }
    }

    /// The section of mark `m`, where these are the readings of all areas. Each desk is given its
    /// own.
    pub fn tell(
        &mut self,
        alloc: Global,
        sites: &Sites,
        m: u32,
        counted: Counted,
        readings: Vec<Reading>,
    ) -> Result<Bytes, NoMemory>
        requires of { IsProgressOf self.old sites.now }
        requires readings { length readings.items ≡ length (areas_of sites.now.targets) }
        ensures of { IsProgressOf self.new sites.now }
        ensures segments { self.new.segments ≡ self.old.segments }
        ensures counts { self.new.counts ≡ self.old.counts }
        ensures tells { IfOk result (λ text. (rules : Rules) (given : ℕ → List Reading)
            → AreDesks self.old.desks.items rules given
            → TellsMark rules given sites.now.targets m counted readings.items
            self.new.desks.items text) }
    {
        let alerts = next_alerts(alloc, &mut self.desks, readings.as_slice())?;
        let section = Section {
            counts: counted.counts,
            refused: counted.refused,
            readings,
            alerts,
        };
        let mut text = Bytes::new(alloc)?;
        put_section(&mut text, sites, self.by_area.as_slice(), m, &section)?;
        Ok(text)
    }

    /// The counts of all segments, with the tail.
    pub fn totals(&self, tail: u32) -> Totals
        ensures segments { result.segments ≡ self.now.segments }
        ensures counts { counts_in_all result ≡ self.now.counts }
        ensures tail { result.tail ≡ tail }
        ensures sums { AddUp (counts_in_all result) }
    {
        Totals {
            segments: self.segments,
            bodies: self.counts.bodies,
            kept: self.counts.kept,
            repeats: self.counts.repeats,
            refused: self.counts.refused,
            tail,
        }
    }
}
