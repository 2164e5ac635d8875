//! The feeder's work in a round: it turns until the lanes have ended and nothing is left.

ghost use Rattle.std.specs.Prelude.{◌≡◌, false, OnOk};
ghost use Rattle.plum_replay.specs.Pieces.{GatheredFew, CanFeed, HasFed};

use crate::gate::Gate;
use crate::round::signals::Signals;
use plum_base::NoMemory;
use plum_centre::{Fed, Feeder};
use plum_packet::SEGMENT_BODIES;
use std::sync::Wait;

/// A turn, unless more is noted than a segment can give.
fn next_turn<R: Wait>(rt: &R, feeder: &mut Feeder) -> Result<Fed, NoMemory>
    requires { CanFeed feeder.old }
    ensures fed { HasFed feeder.old feeder.new }
    ensures few { OnOk result (GatheredFew feeder.new) }
    ensures allowed { OnOk result (feeder.new.refused ≡ false) }
{
    if feeder.notes().as_slice().len() > SEGMENT_BODIES as usize {
        return Err(NoMemory);
    }
    feeder.turn(rt)
}

/// Turns until so many lanes have ended, and a turn that began after that finds nothing.
fn feed_all<R: Wait, G: Gate>(
    rt: &R,
    gate: &G,
    round: u32,
    signals: &Signals,
    lanes: u64,
    feeder: &mut Feeder,
) -> Result<(), NoMemory>
    requires { CanFeed feeder.old }
    ensures fed { HasFed feeder.old feeder.new }
    ensures allowed { OnOk result (feeder.new.refused ≡ false) }
{
    for _ in rt.forever() {
        if signals.stops() {
            return Err(NoMemory);
        }
        let ended = signals.ended();
        gate.turn(round);
        match next_turn(rt, feeder)? {
            Fed::One | Fed::Published => {}
            Fed::Empty if ended >= lanes => return Ok(()),
            Fed::Empty => signals.rest(rt, ended),
        }
    }
    unreachable!()
}

/// The same, and it tells that it begins. Where it is refused memory, the round stops.
pub fn feed<R: Wait, G: Gate>(
    rt: &R,
    gate: &G,
    round: u32,
    signals: &Signals,
    lanes: u64,
    feeder: &mut Feeder,
) -> Result<(), NoMemory>
    requires { CanFeed feeder.old }
    ensures fed { HasFed feeder.old feeder.new }
    ensures allowed { OnOk result (feeder.new.refused ≡ false) }
{
    signals.begin();
    let fed = feed_all(rt, gate, round, signals, lanes, feeder);
    if fed.is_err() {
        signals.stop();
    }
    fed
}
