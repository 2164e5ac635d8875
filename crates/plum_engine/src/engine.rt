//! A station's engine.

ghost use Rattle.std.specs.Prelude.{◌≡◌, Bool, List, [], ◌∷◌, ◌++◌, IfOk};
ghost use Rattle.plum_base.specs.declared.wave.Sample.{Sample};
ghost use Rattle.plum_base.specs.declared.setup.Setup.{Setup};
ghost use Rattle.plum_engine.specs.Run.{samples_since_gap};
ghost use Rattle.plum_engine.specs.Signal.{amplitudes_of};
ghost use Rattle.plum_engine.specs.Value.{IsValue};
ghost use Rattle.plum_engine.specs.Engine.{HoldsRun, StandsFor};

use crate::components::Components;
use plum_base::{NoMemory, Sample, Setup, Tenths, Wave};
use plum_level::Window;
use std::alloc::Global;
use std::marker::Model;

/// The engine of one station. Its components are filtered, and its window is filled, from the last
/// gap on.
#[derive(Drop)]
pub struct Engine {
    components: Components,
    base: Tenths,
    window: Window,
}

impl Model for Engine {
    ghost use Rattle.plum_base.specs.Levels.{IsFactor};
    ghost use Rattle.plum_engine.specs.Engine.{EngineView};

    ghost Value = { EngineView };

    ghost view = { λ e. record { components = e.components; base = e.base; window = e.window } };

    ghost invariant = { λ e. IsFactor e.base };
}

impl Engine {
    /// The engine of a station to which nothing was given. It takes all its memory here.
    pub fn new(alloc: Global, setup: &Setup) -> Result<Engine, NoMemory>
        ensures { IfOk result (λ e. StandsFor e setup.now []) }
    {
        Ok(Engine {
            components: Components::new(setup),
            base: setup.levels.base(),
            window: Window::new(alloc, &setup.levels)?,
        })
    }

    /// Starts a new run where `fresh`, adds the samples of `wave`, and tells the intensity of the
    /// run in tenths: none where the run has fewer than 30 samples.
    pub fn absorb(&mut self, fresh: bool, wave: &Wave) -> Option<Tenths>
        ensures stands { (setup : Setup) (given : List (Bool × List Sample))
            → StandsFor self.old setup given
            → StandsFor self.new setup (given ++ (fresh, wave.now) ∷ []) }
        ensures value { (setup : Setup) (given : List (Bool × List Sample))
            → StandsFor self.old setup given
            → let run = samples_since_gap (given ++ (fresh, wave.now) ∷ [])
            in IsValue setup.levels (amplitudes_of setup run) result }
    {
        self.take_in(fresh, wave);
        self.value()
    }

    /// Adds the samples of `wave` to the run, or to a new one where `fresh`.
    fn take_in(&mut self, fresh: bool, wave: &Wave)
        ensures { (setup : Setup) (given : List (Bool × List Sample))
            → StandsFor self.old setup given
            → StandsFor self.new setup (given ++ (fresh, wave.now) ∷ []) }
    {
        if fresh {
            self.reset();
        }
        self.append(wave.as_slice());
    }

    /// Forgets the run.
    fn reset(&mut self)
        ensures { (setup : Setup) (run : List Sample)
            → HoldsRun self.old setup run → HoldsRun self.new setup [] }
    {
        self.components.reset();
        self.window.reset();
    }

    /// Adds samples to the run.
    fn append(&mut self, samples: &[Sample])
        ensures { (setup : Setup) (run : List Sample)
            → HoldsRun self.old setup run → HoldsRun self.new setup (run ++ samples.now) }
    {
        for sample in samples {
            self.push(*sample);
        }
    }

    /// Adds a sample to the run.
    fn push(&mut self, sample: Sample)
        ensures { (setup : Setup) (run : List Sample)
            → HoldsRun self.old setup run → HoldsRun self.new setup (run ++ sample ∷ []) }
    {
        let amplitude = self.components.amplitude(sample);
        self.window.push(amplitude);
    }

    /// The tenths that the level of the run stands for.
    fn value(&self) -> Option<Tenths>
        ensures { (setup : Setup) (run : List Sample)
            → HoldsRun self.now setup run → IsValue setup.levels (amplitudes_of setup run) result }
    {
        let level = self.window.level()?;
        Some(Tenths(self.base.0 + level as i16))
    }
}
