//! A lane's work in a round: it takes its packets, and sends what they make.

ghost use Rattle.std.specs.Prelude.{◌≡◌, ℕ, List, ◌++◌, true, None, IsSome};
ghost use Rattle.std.specs.Option.{option_to_list};
ghost use Rattle.plum_base.specs.declared.packet.Packet.{Packet};
ghost use Rattle.plum_lanes.specs.Lanes.{waiting_in, HasTaken, KeepsTaken};
ghost use Rattle.plum_lanes.specs.Opening.{Opening};
ghost use Rattle.plum_replay.specs.Pieces.{IsDone, CanTakePart, TakesPart};
ghost use Rattle.plum_replay.specs.Pieces.{CanTakeParts, TakeParts};

use crate::gate::Gate;
use crate::round::number_of;
use crate::round::signals::Signals;
use plum_base::{Offered, Packet};
use plum_lanes::Lane;
use std::collections::VecDeque;
use std::sync::Wait;
use std::thread;
use std::thread::{Threads, for_each_mut};

/// A lane, with those of its packets of a round that it has not taken yet.
#[derive(Drop)]
pub struct Share {
    pub lane: Lane,
    pub packets: VecDeque<Packet>,
}

impl Share {
    /// Whether all of them are taken, and nothing waits.
    pub fn is_done(&self) -> bool
        ensures { result ≡ true → IsDone self.now }
    {
        self.packets.is_empty() && !self.lane.waiting()
    }
}

/// Offers what waits until it is sent. Whether it was: not where the round stops before, nor where
/// the queue is full and the feeder has not begun, since it may begin when the lanes have ended.
fn send<R: Wait>(rt: &R, lane: &mut Lane, signals: &Signals) -> bool
    requires waits { IsSome (waiting_in lane.old) }
    requires lane { (opening : Opening) × (number : ℕ) × (taken : List Packet)
        × HasTaken opening number taken lane.old }
    ensures taken { KeepsTaken lane.old lane.new }
    ensures sent { result ≡ true → waiting_in lane.new ≡ None }
{
    for _ in rt.forever() {
        match lane.offer(rt) {
            Offered::Sent => return true,
            Offered::Busy => signals.wake_feeder(),
        }
        thread::yield_now();
        if signals.stops() || !signals.has_begun() {
            return false;
        }
    }
    unreachable!()
}

/// Sends what waits, if anything does. Whether nothing waits then.
fn clear<R: Wait>(rt: &R, lane: &mut Lane, signals: &Signals) -> bool
    requires { (opening : Opening) × (number : ℕ) × (taken : List Packet)
        × HasTaken opening number taken lane.old }
    ensures taken { KeepsTaken lane.old lane.new }
    ensures free { result ≡ true → waiting_in lane.new ≡ None }
{
    if lane.waiting() {
        send(rt, lane, signals)
    } else {
        true
    }
}

/// The next packet, unless the round stops.
fn next_packet(packets: &mut VecDeque<Packet>, signals: &Signals) -> Option<Packet>
    ensures { packets.old.items ≡ option_to_list result ++ packets.new.items }
{
    if signals.stops() {
        return None;
    }
    packets.pop_front()
}

/// The part of one lane: it takes packets, and sends what they make. Some are left where the round
/// stops, or where the queue is full and the feeder has not begun.
fn take_part<R: Wait, G: Gate>(
    rt: &R,
    share: &mut Share,
    gate: &G,
    round: u32,
    number: u16,
    signals: &Signals,
)
    requires { (opening : Opening) × (i : ℕ) × CanTakePart opening i share.old }
    ensures { (i : ℕ) → TakesPart i share.old share.new }
{
    'packets: while clear(rt, &mut share.lane, signals) {
        let Some(packet) = next_packet(&mut share.packets, signals) else {
            return;
        };
        gate.lane(round, number);
        share.lane.take(packet);
    }
}

/// The parts of all lanes, on threads. Each tells when it has ended.
pub fn take_parts<R: Threads + Wait + Sync, G: Gate + Sync>(
    rt: &R,
    gate: &G,
    round: u32,
    signals: &Signals,
    shares: &mut [Share],
)
    requires { (opening : Opening) × CanTakeParts opening shares.old }
    ensures { TakeParts shares.old shares.new }
{
    let count = shares.len();
    if count > 0 {
        for_each_mut(
            rt,
            shares,
            count,
            &|i, share|
                requires { (opening : Opening) × CanTakePart opening i share.now }
                ensures { TakesPart i share.entry.now share.exit.now }
            {
                take_part(rt, share, gate, round, number_of(i), signals);
                signals.end_lane();
            },
        );
    }
}
