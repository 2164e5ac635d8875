//! The window: the levels of the samples of the last minute.

ghost use Rattle.std.specs.Prelude.{◌≡◌, ℕ, ◌<◌, List, [], ◌∷◌, ◌++◌, IfOk};
ghost use Rattle.plum_base.specs.Levels.{LevelsView};
ghost use Rattle.plum_level.specs.Level.{last_minute, IsLevelOfRun};
ghost use Rattle.plum_base.specs.Levels.{MOST_LEVELS};
ghost use Rattle.plum_level.specs.Window.{StandsFor};

use crate::tally::{ENOUGH, Tally};
use crate::thresholds::Thresholds;
use circular_buffer::HeapCircularBuffer;
use plum_base::{Levels, NoMemory};
use std::alloc::Global;
use std::marker::Model;

/// How many samples a window has at most: a minute at 100 per second.
const WINDOW: usize = 6_000;

/// The last minute of a run: the level of each sample, one byte each, and a tally of them. The
/// level of the run moves with each sample, so that `level` only looks it up.
#[derive(Drop)]
pub struct Window {
    thresholds: Thresholds,
    ring: HeapCircularBuffer<u8>,
    tally: Tally,
}

impl Model for Window {
    ghost use Rattle.std.specs.Prelude.{◌≡◌};
    ghost use Rattle.plum_level.specs.Level.{WINDOW};
    ghost use Rattle.plum_level.specs.Window.{WindowView, IsWindow};

    ghost Value = { WindowView };

    ghost view = { λ w. record { thresholds = w.thresholds; levels = w.ring.items } };

    ghost invariant = { λ w. (w.ring.capacity ≡ WINDOW)
        × IsWindow (record { thresholds = w.thresholds; levels = w.ring.items }) w.tally };
}

impl Window {
    /// The window of no samples. It takes all its memory here: `NoMemory` where that is refused.
    pub fn new(alloc: Global, levels: &Levels) -> Result<Window, NoMemory>
        ensures stands { IfOk result (λ w. StandsFor w levels.now []) }
    {
        Ok(Window {
            thresholds: Thresholds::new(levels),
            ring: HeapCircularBuffer::with_capacity(alloc, WINDOW)?,
            tally: Tally::new(),
        })
    }

    /// Adds a sample of this squared amplitude, in the unit of the thresholds. Where the minute is
    /// full, its oldest sample leaves.
    pub fn push(&mut self, amp: u64)
        ensures stands { (table : LevelsView) (amplitudes : List ℕ)
            → StandsFor self.old table amplitudes
            → StandsFor self.new table (amplitudes ++ amp ∷ []) }
    {
        let level = self.thresholds.level_of(amp);
        self.take_in(level);
    }

    /// The greatest level that at least 30 samples of the last minute reach: none where fewer than
    /// 30 were pushed since the last reset.
    pub fn level(&self) -> Option<u8>
        ensures level { (table : LevelsView) (amplitudes : List ℕ)
            → StandsFor self.now table amplitudes
            → IsLevelOfRun table.thresholds amplitudes result }
    {
        if self.ring.len() < ENOUGH {
            return None;
        }
        Some(self.tally.top())
    }

    /// Forgets all samples.
    pub fn reset(&mut self)
        ensures stands { (table : LevelsView) (amplitudes : List ℕ)
            → StandsFor self.old table amplitudes
            → StandsFor self.new table [] }
    {
        self.ring.clear();
        self.tally.clear();
    }

    /// Adds a sample of this level.
    fn take_in(&mut self, level: u8)
        requires { level < MOST_LEVELS }
        ensures { self.new ≡ record self.old {
          levels = last_minute (self.old.levels ++ level ∷ []);
        } }
    {
        let left = self.ring.push_back(level);
        self.tally.renew(left, level);
    }
}
