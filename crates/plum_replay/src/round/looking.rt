//! A session's work in a round: it reads once.

ghost use Rattle.std.specs.Prelude.{◌≡◌, true, false};
ghost use Rattle.plum_replay.specs.Pieces.{Looks, AllLook};
ghost use Rattle.plum_replay.specs.Rounds.{HasLooked};

use crate::gate::Gate;
use crate::round::number_of;
use crate::round::signals::Signals;
use plum_snap::Session;
use std::sync::Wait;
use std::thread;
use std::thread::{Threads, for_each_mut};

/// A session in a round.
#[derive(Drop)]
pub struct Watch {
    pub session: Session,
    /// Whether it has read.
    pub done: bool,
}

/// Reads. Whether it was let in.
fn read(session: &mut Session) -> bool
    ensures looked { result ≡ true → HasLooked session.old session.new }
    ensures shut { result ≡ false
        → session.new ≡ record session.old { shut = session.new.shut } }
{
    match session.read() {
        Ok(_) => true,
        Err(_) => false,
    }
}

/// Reads once, however often it is shut out. Whether it did: not where the round stops before.
fn look<R: Wait, G: Gate>(
    rt: &R,
    gate: &G,
    round: u32,
    number: u16,
    signals: &Signals,
    session: &mut Session,
) -> bool
    ensures { result ≡ true → HasLooked session.old session.new }
{
    for _ in rt.forever() {
        if signals.stops() {
            return false;
        }
        gate.reading(round, number);
        if read(session) {
            return true;
        }
        thread::yield_now();
    }
    unreachable!()
}

/// All sessions read, on so many threads at most.
pub fn look_all<R: Threads + Wait + Sync, G: Gate + Sync>(
    rt: &R,
    gate: &G,
    round: u32,
    signals: &Signals,
    threads: usize,
    watches: &mut [Watch],
)
    ensures { AllLook watches.old watches.new }
{
    for_each_mut(
        rt,
        watches,
        threads.max(1),
        &|a, watch|
            ensures { Looks watch.entry.now watch.exit.now }
        {
            watch.done = look(rt, gate, round, number_of(a), signals, &mut watch.session);
        },
    );
}
