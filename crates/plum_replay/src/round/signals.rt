//! What the threads of a round tell one another.

use std::sync::Wait;
use std::sync::atomic::Ordering::SeqCst;
use std::sync::atomic::{AtomicBool, AtomicU64};
use std::time::Duration;

/// For how many microseconds the feeder rests at most at an empty queue. It takes the lanes longer
/// to fill a queue of some hundred places.
const REST: u64 = 200;

/// Words without a rule: they decide when a loop ends, and no contract speaks of them.
#[derive(Drop)]
pub struct Signals {
    begun: AtomicBool,
    stop: AtomicBool,
    ended: AtomicU64,
}

impl Signals {
    /// Those of threads of which none has begun.
    pub fn new() -> Signals {
        Signals {
            begun: AtomicBool::new(false),
            stop: AtomicBool::new(false),
            ended: AtomicU64::new(0),
        }
    }

    /// The feeder begins.
    pub fn begin(&self) {
        self.begun.store(true, SeqCst);
    }

    /// Whether the feeder has begun.
    pub fn has_begun(&self) -> bool {
        self.begun.load(SeqCst)
    }

    /// The round stops, since the feeder was refused memory.
    pub fn stop(&self) {
        self.stop.store(true, SeqCst);
    }

    /// Whether the round stops.
    pub fn stops(&self) -> bool {
        self.stop.load(SeqCst)
    }

    /// A lane has ended.
    pub fn end_lane(&self) {
        self.ended.fetch_add(1, SeqCst);
        self.wake_feeder();
    }

    /// How many lanes have ended.
    pub fn ended(&self) -> u64 {
        self.ended.load(SeqCst)
    }

    /// The feeder rests, unless more lanes have ended than it saw: a turn at an empty queue takes a
    /// processor from the lanes.
    pub fn rest<R: Wait>(&self, rt: &R, seen: u64) {
        let seen = u32::try_from(seen).unwrap_or(u32::MAX);
        self.ended
            .park_timeout(rt, seen, Duration::from_micros(REST));
    }

    /// The feeder rests no longer.
    pub fn wake_feeder(&self) {
        self.ended.wake_one();
    }
}
