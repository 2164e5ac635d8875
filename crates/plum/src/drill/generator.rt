//! The numbers of a drill.

ghost use Rattle.std.specs.Prelude.{◌≡◌, ◌≤◌};
ghost use Rattle.plum.specs.Draws.{draw, state_after};
ghost use Rattle.plum.specs.DrillCapture.{component_at, sample_at};

use plum_base::Sample;
use std::marker::Model;

/// What a state is multiplied by, and what is added then (Knuth's, of MMIX).
const MULTIPLIER: u64 = 6_364_136_223_846_793_005;

const INCREMENT: u64 = 1_442_695_040_888_963_407;

/// The greatest component of a drill, in counts.
pub const GREATEST_COMPONENT: u32 = 60_100;

/// A linear congruential generator. Contracts see its state.
#[derive(Debug, Drop)]
pub struct Generator {
    state: u64,
}

impl Model for Generator {
    ghost use Rattle.std.specs.Prelude.{ℕ};

    ghost Value = { ℕ };

    ghost view = { λ g. g.state };
}

impl Generator {
    pub fn new(seed: u64) -> Generator
        ensures { result ≡ seed }
    {
        Generator { state: seed }
    }

    /// The next draw: the upper half of the next state.
    fn draw(&mut self) -> u32
        ensures drawn { result ≡ draw self.old 0 }
        ensures state { self.new ≡ state_after self.old 1 }
    {
        self.state = self.state.wrapping_mul(MULTIPLIER).wrapping_add(INCREMENT);
        (self.state >> 32) as u32
    }

    /// A component, from the negative of the amplitude to the amplitude.
    fn component(&mut self, amplitude: u32) -> i32
        requires { amplitude ≤ GREATEST_COMPONENT }
        ensures drawn { result ≡ component_at self.old amplitude 0 }
        ensures state { self.new ≡ state_after self.old 1 }
    {
        (self.draw() % (2 * amplitude + 1)) as i32 - amplitude as i32
    }

    /// A sample of such components: x, y and z are drawn in this order.
    pub fn sample(&mut self, amplitude: u32) -> Sample
        requires { amplitude ≤ GREATEST_COMPONENT }
        ensures drawn { result ≡ sample_at self.old amplitude 0 }
        ensures state { self.new ≡ state_after self.old 3 }
    {
        let x = self.component(amplitude);
        let y = self.component(amplitude);
        let z = self.component(amplitude);
        Sample { x, y, z }
    }
}
