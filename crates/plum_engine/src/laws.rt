//! The laws of runs, of amplitudes and of values, each for whoever calls its function.

ghost use Rattle.plum_engine.specs.Run.{SinceGapIs, SinceNoGap, EachSplits};
ghost use Rattle.plum_engine.specs.Signal.{AsManyAmplitudes, AmplitudeAtEach, AmplitudesAreBounded};
ghost use Rattle.plum_engine.specs.Engine.{OneValue, ValueIs, PassesThrough};

use plum_filter::one_output;
use plum_level::one_level;

/// A run has one squared vector amplitude for each sample: the sum of the squares of the three
/// filtered components at its index.
pub fn amplitudes()
    ensures as_many { AsManyAmplitudes }
    ensures each { AmplitudeAtEach }
    ensures bounded { AmplitudesAreBounded }
{
    // For the contract: a stage's output is clamped at each index.
    one_output();
}

/// Where the cascade passes its input through, each sample has the sum of the squares of its three
/// signals.
pub fn passes_through()
    ensures { PassesThrough }
{
    // For the contract: a stage has one output.
    one_output();
}

/// A station has one value after its packets, and a function of the packets gives it.
pub fn one_value()
    ensures only { OneValue }
    ensures is { ValueIs }
{
    // For the contract: what is known of levels.
    one_level();
}

/// What the packets since the last gap are.
pub fn since_last_gap()
    ensures gap { SinceGapIs }
    ensures no_gap { SinceNoGap }
    ensures either { EachSplits }
{}
