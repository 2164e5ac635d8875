//! The thresholds, laid out so that the search for a level takes the same time at each sample.

ghost use Rattle.std.specs.Prelude.{◌≡◌, ◌<◌};
ghost use Rattle.std.specs.List.Sorted.{IsNonDecreasing};
ghost use Rattle.plum_base.specs.Levels.{IsLevelTable};
ghost use Rattle.plum_level.specs.Level.{sample_level};
ghost use Rattle.plum_base.specs.Levels.{MOST_LEVELS};

use plum_base::{Levels, MOST_LEVELS};
use std::marker::Model;

/// The thresholds of a table, filled up with `u64::MAX` to the length of the longest table. So the
/// search takes the same steps in each table, and its time depends on no amplitude either.
/// Contracts see the list of the thresholds.
#[derive(Drop)]
pub(crate) struct Thresholds {
    filled: [u64; MOST_LEVELS],
    last: usize,
}

impl Model for Thresholds {
    ghost use Rattle.std.specs.Prelude.{List, ℕ, ◌+◌, take};
    ghost use Rattle.plum_level.specs.Thresholds.{IsFilled};

    ghost Value = { List ℕ };

    ghost view = { λ t. take (t.last + 1) t.filled };

    ghost invariant = { λ t. IsFilled t.filled t.last };
}

impl Thresholds {
    /// The thresholds of this table.
    pub(crate) fn new(levels: &Levels) -> Thresholds
        ensures value { result ≡ levels.now.thresholds }
        ensures table { IsLevelTable levels.now }
    {
        let thresholds = levels.thresholds();
        let mut filled = [u64::MAX; MOST_LEVELS];
        filled[..thresholds.len()].copy_from_slice(thresholds);
        Thresholds {
            filled,
            last: thresholds.len() - 1,
        }
    }

    /// The level of a sample of this squared amplitude.
    pub(crate) fn level_of(&self, amp: u64) -> u8
        ensures level { result ≡ sample_level self.now amp }
        ensures listed { result < MOST_LEVELS }
    {
        // An amplitude of u64::MAX reaches the fill too.
        last_reached(&self.filled, amp).min(self.last) as u8
    }
}

/// The last of these thresholds that the amplitude reaches, and 0 where it reaches none. Each of
/// seven halvings adds its comparison as a number: which way a branch on it goes, a processor could
/// only guess.
fn last_reached(filled: &[u64; MOST_LEVELS], amp: u64) -> usize
    requires order { IsNonDecreasing filled.now }
    ensures level { result ≡ sample_level filled.now amp }
{
    let mut level = 0;
    let mut width = MOST_LEVELS;
    while width > 1 {
        let half = width / 2;
        level += half * usize::from(filled[level + half] <= amp);
        width -= half;
    }
    level
}
