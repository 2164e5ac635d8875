//! The three components of a station.

ghost use Rattle.std.specs.Prelude.{◌≡◌, ◌^◌, ◌≤◌, List, []};
ghost use Rattle.plum_base.specs.declared.setup.Setup.{Setup};
ghost use Rattle.plum_base.specs.declared.wave.Sample.{Sample};
ghost use Rattle.plum_base.specs.Setup.{IsGain};
ghost use Rattle.plum_filter.specs.Filter.{JoinsInput};
ghost use Rattle.plum_filter.specs.Stage.{IsTerm};
ghost use Rattle.plum_engine.specs.Components.{StandsFor, JoinsSample};
ghost use Rattle.plum_engine.specs.Signal.{signal_of, square};

use crate::gain::signal;
use plum_base::{Gain, Sample, Setup};
use plum_filter::{Filter, as_long};
use std::marker::Model;

/// The gain, and the filter of each component with its own state.
#[derive(Drop)]
pub struct Components {
    gain: Gain,
    x: Filter,
    y: Filter,
    z: Filter,
}

impl Model for Components {
    ghost use Rattle.plum_base.specs.Setup.{IsGain};
    ghost use Rattle.plum_engine.specs.Components.{ComponentsView};

    ghost Value = { ComponentsView };

    ghost view = { λ c. record { gain = c.gain; x = c.x; y = c.y; z = c.z } };

    ghost invariant = { λ c. IsGain c.gain.g c.gain.h };
}

/// A component's next count, filtered.
fn next_filtered(filter: &mut Filter, gain: Gain, count: i32) -> i32
    requires { IsGain gain.g gain.h }
    ensures joins { JoinsInput filter.old filter.new (signal_of gain count) result }
    ensures term { IsTerm result }
{
    filter.step(signal(gain, count))
}

/// The square of a filtered component, which is given in filtered units.
fn squared(component: i32) -> u64
    requires { IsTerm component }
    ensures value { result ≡ square component }
    ensures bound { result ≤ 2 ^ 60 }
{
    let size = component.unsigned_abs() as u64;
    size * size
}

impl Components {
    /// The components of a station to which no sample was given.
    pub fn new(setup: &Setup) -> Components
        ensures { StandsFor result setup.now [] }
    {
        Components {
            gain: setup.gain,
            x: Filter::new(&setup.cascade),
            y: Filter::new(&setup.cascade),
            z: Filter::new(&setup.cascade),
        }
    }

    /// Forgets all samples.
    pub fn reset(&mut self)
        ensures { (setup : Setup) (run : List Sample)
            → StandsFor self.old setup run → StandsFor self.new setup [] }
    {
        self.x.reset();
        self.y.reset();
        self.z.reset();
    }

    /// The squared vector amplitude of the next sample, in squared filtered units.
    pub fn amplitude(&mut self, sample: Sample) -> u64
        ensures { JoinsSample self.old self.new sample result }
    {
        // For the contract: the three sequences are as long as the run.
        as_long();
        let x = next_filtered(&mut self.x, self.gain, sample.x);
        let y = next_filtered(&mut self.y, self.gain, sample.y);
        let z = next_filtered(&mut self.z, self.gain, sample.z);
        squared(x) + squared(y) + squared(z)
    }
}
