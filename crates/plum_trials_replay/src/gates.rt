//! Gates that hold steps of a round until others have come as far.

use plum_replay::Gate;
use std::sync::atomic::Ordering::SeqCst;
use std::sync::atomic::{AtomicBool, AtomicU64};
use std::thread;

/// So many turns a hold lasts at most.
const TURNS: u32 = 10_000_000;

/// Waits until a count has come so far. Whether it has: not where the hold comes to its end.
fn reaches(count: &AtomicU64, least: u64) -> bool {
    for _ in 0..TURNS {
        if count.load(SeqCst) >= least {
            return true;
        }
        thread::yield_now();
    }
    false
}

/// In round 2 each lane waits for a reading, and each reading for a lane.
#[derive(Drop)]
pub struct Meeting {
    lanes: AtomicU64,
    readings: AtomicU64,
    missed: AtomicBool,
}

impl Meeting {
    pub fn new() -> Meeting {
        Meeting {
            lanes: AtomicU64::new(0),
            readings: AtomicU64::new(0),
            missed: AtomicBool::new(false),
        }
    }

    /// Whether a lane and a reading came, and each saw the other.
    pub fn met(&self) -> bool {
        let came = self.lanes.load(SeqCst) > 0 && self.readings.load(SeqCst) > 0;
        came && !self.missed.load(SeqCst)
    }

    fn wait_for(&self, others: &AtomicU64) {
        if !reaches(others, 1) {
            self.missed.store(true, SeqCst);
        }
    }
}

impl Gate for Meeting {
    fn lane(&self, round: u32, _lane: u16) {
        if round == 2 {
            self.lanes.fetch_add(1, SeqCst);
            self.wait_for(&self.readings);
        }
    }

    fn turn(&self, _round: u32) {}

    fn reading(&self, round: u32, _session: u16) {
        if round == 2 {
            self.readings.fetch_add(1, SeqCst);
            self.wait_for(&self.lanes);
        }
    }
}

/// In round 1 the lane's second call waits until a reading has passed, and a reading until a fourth
/// turn begins behind that call. Two turns publish what was sent before the call: one takes it from
/// the queue, and the next finds the queue empty.
#[derive(Drop)]
pub struct Within {
    lanes: AtomicU64,
    turns: AtomicU64,
    readings: AtomicU64,
    missed: AtomicBool,
}

impl Within {
    pub fn new() -> Within {
        Within {
            lanes: AtomicU64::new(0),
            turns: AtomicU64::new(0),
            readings: AtomicU64::new(0),
            missed: AtomicBool::new(false),
        }
    }

    /// Whether a reading passed, and no hold came to its end.
    pub fn met(&self) -> bool {
        self.readings.load(SeqCst) > 0 && !self.missed.load(SeqCst)
    }

    fn wait_for(&self, others: &AtomicU64, least: u64) {
        if !reaches(others, least) {
            self.missed.store(true, SeqCst);
        }
    }
}

impl Gate for Within {
    fn lane(&self, round: u32, _lane: u16) {
        if round == 1 && self.lanes.fetch_add(1, SeqCst) == 1 {
            self.wait_for(&self.readings, 1);
        }
    }

    fn turn(&self, _round: u32) {
        if self.lanes.load(SeqCst) >= 2 {
            self.turns.fetch_add(1, SeqCst);
        }
    }

    fn reading(&self, round: u32, _session: u16) {
        if round == 1 {
            self.wait_for(&self.turns, 4);
            self.readings.fetch_add(1, SeqCst);
        }
    }
}

/// Counts the calls of each lane and of each session by its number: those of the first two, and
/// those of all others, one in a million of the other.
#[derive(Drop)]
pub struct Numbers {
    lanes: AtomicU64,
    readings: AtomicU64,
}

/// What a call of this number adds.
fn call_of(number: u16) -> u64 {
    match number {
        0 => 1,
        1 => 1_000_000,
        _ => 1_000_000_000_000,
    }
}

impl Numbers {
    pub fn new() -> Numbers {
        Numbers {
            lanes: AtomicU64::new(0),
            readings: AtomicU64::new(0),
        }
    }

    /// The calls of lanes, and those of sessions.
    pub fn calls(&self) -> (u64, u64) {
        (self.lanes.load(SeqCst), self.readings.load(SeqCst))
    }
}

impl Gate for Numbers {
    fn lane(&self, _round: u32, lane: u16) {
        self.lanes.fetch_add(call_of(lane), SeqCst);
    }

    fn turn(&self, _round: u32) {}

    fn reading(&self, _round: u32, session: u16) {
        self.readings.fetch_add(call_of(session), SeqCst);
    }
}
