//! How many samples have each level, and the greatest level that enough of them have or exceed.

ghost use Rattle.std.specs.Prelude.{◌≡◌, ◌+◌, ◌-◌, ◌<◌, ◌≤◌, slice_index, sum, replicate, IfSome};
ghost use Rattle.plum_level.specs.Level.{WINDOW, ENOUGH};
ghost use Rattle.plum_base.specs.Levels.{MOST_LEVELS};
ghost use Rattle.plum_level.specs.Tallies.{from_level, one_sample_more, one_sample_less, renewed};
ghost use Rattle.plum_level.specs.Tallies.{IsTally, IsSettled};

use plum_base::MOST_LEVELS;

/// How many samples must reach a threshold: 0.3 seconds.
pub(crate) const ENOUGH: usize = 30;

/// The number of samples of each level, a top level, and how many have it or a higher one. These
/// are counted without a branch: which way it goes, a processor could only guess.
#[derive(Drop)]
pub(crate) struct Tally {
    counts: [usize; MOST_LEVELS],
    top: usize,
    reached: usize,
}

impl Tally {
    /// The tally of no samples.
    pub(crate) fn new() -> Tally
        ensures counts { result.counts ≡ replicate MOST_LEVELS 0 }
        ensures settled { IsSettled result }
    {
        Tally {
            counts: [0; MOST_LEVELS],
            top: 0,
            reached: 0,
        }
    }

    /// Counts no sample any more.
    pub(crate) fn clear(&mut self)
        ensures counts { self.new.counts ≡ replicate MOST_LEVELS 0 }
        ensures settled { IsSettled self.new }
    {
        self.counts = [0; MOST_LEVELS];
        self.top = 0;
        self.reached = 0;
    }

    /// Counts a sample that came, and no longer the one that left. The top moves with them.
    pub(crate) fn renew(&mut self, left: Option<u8>, came: u8)
        requires came { came < MOST_LEVELS }
        requires left { IfSome left (λ l. (l < MOST_LEVELS) × (0 < slice_index self.old.counts l)) }
        requires few { sum self.old.counts ≤ WINDOW }
        requires tally { IsTally self.old }
        ensures counts { self.new.counts ≡ renewed self.old.counts left came }
        ensures settled { IsSettled self.new }
    {
        if let Some(left) = left {
            self.remove(left);
        }
        self.add(came);
        self.settle();
    }

    /// Counts a sample that came.
    fn add(&mut self, level: u8)
        requires listed { level < MOST_LEVELS }
        requires tally { IsTally self.old }
        requires few { sum self.old.counts ≤ WINDOW }
        ensures counts { self.new.counts ≡ one_sample_more self.old.counts level }
        ensures tally { IsTally self.new }
    {
        let level = level as usize;
        self.counts[level] += 1;
        self.reached += usize::from(level >= self.top);
    }

    /// Counts a sample no longer.
    fn remove(&mut self, level: u8)
        requires listed { level < MOST_LEVELS }
        requires tally { IsTally self.old }
        requires there { 0 < slice_index self.old.counts level }
        ensures counts { self.new.counts ≡ one_sample_less self.old.counts level }
        ensures tally { IsTally self.new }
    {
        let level = level as usize;
        self.counts[level] -= 1;
        self.reached -= usize::from(level >= self.top);
    }

    /// Moves the top to the greatest level that enough samples have or exceed, or to 0.
    fn settle(&mut self)
        requires tally { IsTally self.old }
        requires few { sum self.old.counts ≤ WINDOW + 1 }
        ensures counts { self.new.counts ≡ self.old.counts }
        ensures settled { IsSettled self.new }
    {
        self.climb();
        self.descend();
    }

    /// Moves the top up while enough samples exceed it.
    fn climb(&mut self)
        requires tally { IsTally self.old }
        ensures counts { self.new.counts ≡ self.old.counts }
        ensures tally { IsTally self.new }
        ensures few { from_level self.new.counts (self.new.top + 1) < ENOUGH }
    {
        while self.reached - self.counts[self.top] >= ENOUGH {
            self.reached -= self.counts[self.top];
            self.top += 1;
        }
    }

    /// Moves the top down until enough samples have it or exceed it.
    fn descend(&mut self)
        requires tally { IsTally self.old }
        requires sum { sum self.old.counts ≤ WINDOW + 1 }
        requires few { from_level self.old.counts (self.old.top + 1) < ENOUGH }
        ensures counts { self.new.counts ≡ self.old.counts }
        ensures settled { IsSettled self.new }
    {
        while self.reached < ENOUGH && self.top > 0 {
            self.top -= 1;
            self.reached += self.counts[self.top];
        }
    }

    /// The top level.
    pub(crate) fn top(&self) -> u8
        requires { IsTally self.now }
        ensures { result ≡ self.now.top }
    {
        self.top as u8
    }
}
