//! The law of levels, for whoever calls its function.

ghost use Rattle.plum_level.specs.Level.{OneLevel, LevelIs};

/// A run has one level, and a function of thresholds and amplitudes gives it.
pub fn one_level()
    ensures only { OneLevel }
    ensures is { LevelIs }
{}
