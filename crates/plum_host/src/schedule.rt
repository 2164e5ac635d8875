//! A schedule of calls: which of them fail, and how much the others move.

ghost use Rattle.std.specs.Prelude.{◌≡◌, ◌↔◌, ◌<◌, ◌^◌, ℕ, Some, IsTrue, IsErr, IfOk, OnOk, OnErr};
ghost use Rattle.plum_host.specs.Faults.{HasRisen};
ghost use Rattle.plum_host.specs.Schedule.{schedule_of, next_fails, most_moved, one_call_more};
ghost use Rattle.plum_host.specs.Schedule.{failed_calls, is_listed};

use crate::host::Failed;
use std::marker::Model;

/// A schedule of the calls of one kind, reads or writes.
#[derive(Debug, Drop)]
pub struct Schedule {
    /// The most bytes that a call moves.
    step: u32,
    /// The numbers of the calls that fail, from 1.
    failing: Vec<u32>,
    /// How many calls were made.
    made: u64,
}

impl Model for Schedule {
    ghost use Rattle.std.specs.Prelude.{◌≤◌};
    ghost use Rattle.plum_host.specs.Schedule.{ScheduleView};

    ghost Value = { ScheduleView };

    ghost view = { λ s. record { step = s.step; failing = s.failing.items; made = s.made } };

    ghost invariant = { λ s. 1 ≤ s.step };
}

/// Whether the call of this number is listed.
fn is_listed(numbers: &[u32], call: u64) -> bool
    ensures value { result ≡ is_listed numbers.now call }
    ensures bound { (n : ℕ) → IsTrue (is_listed numbers.now n) → n < 2 ^ 32 }
{
    numbers.iter().any(|number| u64::from(*number) == call)
}

impl Schedule {
    ghost use Rattle.std.specs.Prelude.{◌≤◌};

    /// A schedule of calls that move at most `step` bytes, of which those of these numbers, from 1,
    /// fail, and of which none was made.
    pub fn new(step: u32, failing: Vec<u32>) -> Schedule
        requires { 1 ≤ step }
        ensures { result ≡ schedule_of step failing.items }
    {
        Schedule {
            step,
            failing,
            made: 0,
        }
    }

    /// Counts one call more, of so many bytes. It fails, or moves as many as this at most.
    fn next(&mut self, asked: usize) -> Result<usize, Failed>
        ensures fails { IsErr result ↔ IsTrue (next_fails (Some self.old)) }
        ensures most { IfOk result (λ most. most ≡ most_moved (Some self.old) asked) }
        ensures some { IfOk result (λ most. most ≡ 0 → asked ≡ 0) }
        ensures counted { Some self.new ≡ one_call_more (Some self.old) }
        ensures fault { OnErr result
            (HasRisen (failed_calls (Some self.old)) (failed_calls (Some self.new))) }
        ensures no_fault { OnOk result
            (failed_calls (Some self.new) ≡ failed_calls (Some self.old)) }
    {
        let call = self.made.saturating_add(1);
        self.made = call;
        if is_listed(&self.failing, call) {
            return Err(Failed);
        }
        Ok(asked.min(self.step as usize))
    }
}

/// Counts one call more, of so many bytes, where there is a schedule. It fails, or moves as many as
/// this at most.
pub fn next_call(schedule: &mut Option<Schedule>, asked: usize) -> Result<usize, Failed>
    ensures fails { IsErr result ↔ IsTrue (next_fails schedule.old) }
    ensures most { IfOk result (λ most. most ≡ most_moved schedule.old asked) }
    ensures some { IfOk result (λ most. most ≡ 0 → asked ≡ 0) }
    ensures counted { schedule.new ≡ one_call_more schedule.old }
    ensures fault { OnErr result
        (HasRisen (failed_calls schedule.old) (failed_calls schedule.new)) }
    ensures no_fault { OnOk result (failed_calls schedule.new ≡ failed_calls schedule.old) }
{
    match schedule {
        None => Ok(asked),
        Some(schedule) => schedule.next(asked),
    }
}
