//! The threshold table that turns squared amplitudes into tenths of intensity.

ghost use Rattle.std.specs.Prelude.{◌≡◌, ◌-◌, ◌<◌, ◌≤◌, length, slice_index, IfOk, IfErr, IfSome};
ghost use Rattle.std.specs.Prelude.{IfNone};
ghost use Rattle.plum_base.specs.Levels.{RisesUpTo, IsWithinUpTo, GREATEST_AMPLITUDE};
ghost use Rattle.plum_base.specs.Levels.{IsLevelTable, IsFirstLevelFault};

use crate::numbers::Tenths;
use arrayvec::ArrayVec;
use std::marker::Model;

/// The greatest squared amplitude: three components of 2^30.
pub const GREATEST_AMPLITUDE: u64 = 3 << 60;

/// The most thresholds of a table.
pub const MOST_LEVELS: usize = 128;

/// What is wrong first with a table: no entry, entry 0 is not 0, the entry at that position is the
/// first not greater than its predecessor, the first above 3 * 2^60, or the base is out of -100 to
/// 100 tenths.
#[derive(Clone, Copy, Debug, PartialEq, Eq)]
pub enum LevelFault {
    Empty,
    First,
    Order(u8),
    Above(u8),
    Base,
}

/// 1 to 128 strictly rising squared amplitudes, the first of them 0, and the tenth at which they
/// begin.
#[derive(Debug, Drop)]
pub struct Levels {
    thresholds: ArrayVec<u64, MOST_LEVELS>,
    base: Tenths,
}

impl Model for Levels {
    ghost use Rattle.plum_base.specs.Levels.{LevelsView, IsLevelTable};

    ghost Value = { LevelsView };

    ghost view = { λ l. record { thresholds = l.thresholds.items; base = l.base } };

    ghost invariant = { λ l. IsLevelTable (record {
      thresholds = l.thresholds.items;
      base =
          l.base;
    }) };
}

/// The first entry that is not greater than its predecessor.
fn first_not_rising(thresholds: &[u64]) -> Option<usize>
    ensures found { IfSome result (λ i. (0 < i) × (i < length thresholds.now)
        × RisesUpTo thresholds.now i
        × (slice_index thresholds.now i ≤ slice_index thresholds.now (i - 1))) }
    ensures none { IfNone result (RisesUpTo thresholds.now (length thresholds.now)) }
{
    for i in 1..thresholds.len() {
        if thresholds[i] <= thresholds[i - 1] {
            return Some(i);
        }
    }
    None
}

/// The first entry above the greatest squared amplitude.
fn first_above(thresholds: &[u64]) -> Option<usize>
    ensures found { IfSome result (λ i. (i < length thresholds.now) × IsWithinUpTo thresholds.now i
        × (GREATEST_AMPLITUDE < slice_index thresholds.now i)) }
    ensures none { IfNone result (IsWithinUpTo thresholds.now (length thresholds.now)) }
{
    for (i, threshold) in thresholds.iter().enumerate() {
        if *threshold > GREATEST_AMPLITUDE {
            return Some(i);
        }
    }
    None
}

impl Levels {
    /// The table of these thresholds, where level i stands for base + i tenths.
    pub fn new(thresholds: ArrayVec<u64, MOST_LEVELS>, base: Tenths) -> Result<Levels, LevelFault>
        ensures ok { IfOk result (λ l. (l ≡ record { thresholds = thresholds.items; base = base })
            × IsLevelTable l) }
        ensures fault { IfErr result (IsFirstLevelFault
            (record { thresholds = thresholds.items; base = base })) }
    {
        match thresholds.as_slice().first() {
            None => return Err(LevelFault::Empty),
            Some(0) => {}
            Some(_) => return Err(LevelFault::First),
        }
        if let Some(i) = first_not_rising(thresholds.as_slice()) {
            return Err(LevelFault::Order(i as u8));
        }
        if let Some(i) = first_above(thresholds.as_slice()) {
            return Err(LevelFault::Above(i as u8));
        }
        if !base.is_factor() {
            return Err(LevelFault::Base);
        }
        Ok(Levels { thresholds, base })
    }

    /// The thresholds, in squared filtered units.
    pub fn thresholds(&self) -> &[u64]
        ensures value { result.now ≡ self.now.thresholds }
        ensures table { IsLevelTable self.now }
    {
        self.thresholds.as_slice()
    }

    /// The tenths for which level 0 stands.
    pub fn base(&self) -> Tenths
        ensures value { result ≡ self.now.base }
        ensures table { IsLevelTable self.now }
    {
        self.base
    }
}
