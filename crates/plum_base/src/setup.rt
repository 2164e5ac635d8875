//! The setup of a centre.

ghost use Rattle.plum_base.specs.Setup.{IsGain, AreRules, IsLaneCount, IsQueueBound};

use crate::bounds::Bounds;
use crate::cascade::Cascade;
use crate::levels::Levels;
use crate::rules::Rules;

/// The bounds of a gain's `g`.
pub const GAIN_G: Bounds = Bounds {
    low: 1,
    high: 1 << 31,
};

/// The bounds of a gain's `h`.
pub const GAIN_H: Bounds = Bounds { low: 0, high: 31 };

/// The bounds of how many calm readings in a row cancel an alert.
pub const CALM: Bounds = Bounds { low: 1, high: 1000 };

/// The bounds of how many lanes there are.
pub const LANES: Bounds = Bounds { low: 1, high: 16 };

/// The bounds of how many entries the queue holds.
pub const QUEUE: Bounds = Bounds {
    low: 1,
    high: 65_536,
};

/// From counts to filtered units: times `g`, divided by 2^`h`.
#[derive(Clone, Copy, Debug, PartialEq, Eq)]
pub struct Gain {
    pub g: u32,
    pub h: u8,
}

/// A setup with each number in its range: a gain of 1 to 2^31 over 2^0 to 2^31, a cancel class not
/// above the raise class, 1 to 1,000 calm readings, 1 to 16 lanes and a queue of 1 to 65,536
/// entries.
#[derive(Debug, Drop)]
pub struct Setup {
    pub cascade: Cascade,
    pub gain: Gain,
    pub levels: Levels,
    pub rules: Rules,
    pub lanes: u16,
    pub queue: u32,
    pub ghost gain_in_range: { IsGain gain.g gain.h },
    pub ghost rules_in_range: { AreRules rules },
    pub ghost lanes_in_range: { IsLaneCount lanes },
    pub ghost queue_in_range: { IsQueueBound queue },
}
