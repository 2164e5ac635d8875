//! Bounds of numbers.

ghost use Rattle.std.specs.Prelude.{◌↔◌, IsTrue};
ghost use Rattle.plum_base.specs.Bounds.{IsWithin};

/// The numbers from `low` to `high`, both included.
#[derive(Clone, Copy, Debug, PartialEq, Eq)]
pub struct Bounds {
    pub low: u32,
    pub high: u32,
}

impl Bounds {
    /// Whether a number is one of these.
    pub fn hold(self, n: u32) -> bool
        ensures { IsTrue result ↔ IsWithin self n }
    {
        self.low <= n && n <= self.high
    }
}
