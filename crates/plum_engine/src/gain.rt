//! The gain rule.

ghost use Rattle.std.specs.Prelude.{◌≡◌};
ghost use Rattle.plum_base.specs.Setup.{IsGain};
ghost use Rattle.plum_filter.specs.Stage.{IsTerm};
ghost use Rattle.plum_engine.specs.Signal.{signal_of};

use plum_base::Gain;
use plum_filter::clamp_term;

/// The signal of a count, clamped: from counts to filtered units.
pub fn signal(gain: Gain, count: i32) -> i32
    requires { IsGain gain.g gain.h }
    ensures value { result ≡ signal_of gain count }
    ensures term { IsTerm result }
{
    clamp_term((count as i64 * gain.g as i64) >> gain.h)
}
