//! The samples of a packet.

ghost use Rattle.std.specs.Prelude.{◌≡◌, ◌<◌, ◌≤◌, [], ◌∷◌, ◌++◌, length, OnOk, OnErr, IfOk};

use crate::memory::NoMemory;
use std::alloc::Global;
use std::marker::Model;

/// One sample of the three components, in counts.
#[derive(Clone, Copy, Debug, PartialEq, Eq)]
pub struct Sample {
    pub x: i32,
    pub y: i32,
    pub z: i32,
}

/// Up to 6,000 samples, the oldest first. Contracts see the list of them.
#[derive(Debug, Drop)]
pub struct Wave {
    samples: Vec<Sample>,
}

impl Model for Wave {
    ghost use Rattle.std.specs.Prelude.{List, ◌≤◌, length};
    ghost use Rattle.plum_base.specs.declared.wave.Sample.{Sample};
    ghost use Rattle.plum_base.specs.declared.wave.TheConstants.Wave.{MAX};

    ghost Value = { List Sample };

    ghost view = { λ w. w.samples.items };

    ghost invariant = { λ w. length w.samples.items ≤ MAX };
}

impl Wave {
    /// The longest wave, in samples.
    pub const MAX: usize = 6_000;

    /// No samples.
    pub fn new(alloc: Global) -> Result<Wave, NoMemory>
        ensures { IfOk result (λ w. w ≡ []) }
    {
        Ok(Wave {
            samples: Vec::new(alloc),
        })
    }

    /// An empty wave with room for so many samples, all taken at once.
    pub fn with_capacity(alloc: Global, samples: usize) -> Result<Wave, NoMemory>
        ensures { IfOk result (λ w. w ≡ []) }
    {
        Ok(Wave {
            samples: Vec::with_capacity(alloc, samples)?,
        })
    }

    /// Appends a sample.
    pub fn push(&mut self, sample: Sample) -> Result<(), NoMemory>
        requires { length self.old < Self.MAX }
        ensures ok { OnOk result (self.new ≡ self.old ++ sample ∷ []) }
        ensures err { OnErr result (self.new ≡ self.old) }
    {
        self.samples.push(sample)?;
        Ok(())
    }

    /// The samples, the oldest first.
    pub fn as_slice(&self) -> &[Sample]
        ensures value { result.now ≡ self.now }
        ensures bound { length self.now ≤ Self.MAX }
    {
        self.samples.as_slice()
    }
}
