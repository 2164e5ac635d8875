//! The end of a round: the passes of the lanes come back to the gatherer, from the last to the
//! first, and leave again.

ghost use Rattle.std.specs.Prelude.{◌≡◌, ℕ, ◌+◌, ◌<◌, List, length, slice_index_or, IsOk};
ghost use Rattle.crossbeam_queue.specs.Passes.{view};
ghost use Rattle.plum_base.specs.declared.entry.Entry.{Entry};
ghost use Rattle.plum_lanes.specs.declared.lanes.Lane.{Lane};
ghost use Rattle.plum_lanes.specs.Rule.{settle, settled_at, IsGatheredThen};
ghost use Rattle.plum_lanes.specs.Opening.{Opening};
ghost use Rattle.plum_lanes.specs.Lanes.{sent, BelongsTo, IsLane};
ghost use Rattle.plum_lanes.specs.Gathering.{settled_of, out_of, AreSettled, IsGatherOf};
ghost use Rattle.plum_lanes.specs.Rounds.{AreWhole, ClosesRound};
ghost use Rattle.plum_lanes.specs.Passing.{AllBelong, IsSameBut, IsSameGather};

use crate::gatherer::Gather;
use crate::lanes::Lane;
use crate::rule::Gets;
use crate::steps::{join, spare, split};
use plum_base::NoMemory;
use plum_core::{histories, histories_by_lane};
use std::mem;

/// The pass of the last lane that has one comes back, and what it sent is settled.
fn recall(lane: &mut Lane, gather: &mut Gather)
    requires { (opening : Opening) × (number : ℕ) × IsLane opening number lane.old
        × IsGatherOf opening gather.old × (out_of gather.old ≡ number + 1) }
    ensures gather { IsSameGather gather.old gather.new }
    ensures out { out_of gather.new + 1 ≡ out_of gather.old }
    ensures settled { settled_of gather.new
        ≡ settle (settled_of gather.old) (out_of gather.new) (sent lane.old) }
    ensures lane { IsSameBut lane.old lane.new }
{
    let other = spare(&gather.ring, &mut gather.pass);
    let pass = mem::replace(&mut lane.pass, other);
    join(&gather.ring, &mut gather.pass, pass);
}

/// The next lane gets a pass, which has sent what is settled of it.
fn reissue(lane: &mut Lane, gather: &mut Gather)
    requires { (opening : Opening) × IsGatherOf opening gather.old }
    ensures gather { IsSameGather gather.old gather.new }
    ensures out { out_of gather.new ≡ out_of gather.old + 1 }
    ensures settled { settled_of gather.new ≡ settled_of gather.old }
    ensures lane { (opening : Opening) → BelongsTo opening (out_of gather.old) lane.old
        → IsGatherOf opening gather.old → IsLane opening (out_of gather.old) lane.new }
    ensures sent { sent lane.new ≡ settled_at (settled_of gather.old) (out_of gather.old) }
    ensures same { IsSameBut lane.old lane.new }
{
    let pass = split(&gather.ring, &mut gather.pass);
    drop(mem::replace(&mut lane.pass, pass));
}

/// What the queue says of what is settled, at one moment.
fn look(gather: &mut Gather)
    requires { (opening : Opening) × IsGatherOf opening gather.old }
    ensures gather { IsSameGather gather.old gather.new }
    ensures out { out_of gather.new ≡ out_of gather.old }
    ensures settled { settled_of gather.new ≡ settled_of gather.old }
    ensures fact { (queued : List Entry) × IsGatheredThen (view gather.old.pass) queued }
{
    gather.ring.learn_as::<Gets>(&mut gather.pass);
}

fn recall_all(lanes: &mut [Lane], gather: &mut Gather)
    requires { (opening : Opening) × AreWhole opening lanes.old gather.old }
    ensures gather { IsSameGather gather.old gather.new }
    ensures out { out_of gather.new ≡ 0 }
    ensures settled { AreSettled lanes.old gather.new }
    ensures lanes { (i : ℕ) (d : Lane) → i < length lanes.old
        → IsSameBut (slice_index_or lanes.old i d) (slice_index_or lanes.new i d) }
    ensures count { length lanes.new ≡ length lanes.old }
{
    let mut left = lanes.len();
    while left > 0 {
        left -= 1;
        recall(&mut lanes[left], gather);
    }
}

fn reissue_all(lanes: &mut [Lane], gather: &mut Gather)
    requires { (opening : Opening) × IsGatherOf opening gather.old × (out_of gather.old ≡ 0) }
    ensures gather { IsSameGather gather.old gather.new }
    ensures out { out_of gather.new ≡ length lanes.old }
    ensures settled { settled_of gather.new ≡ settled_of gather.old }
    ensures lanes { (opening : Opening) → AllBelong opening lanes.old
        → IsGatherOf opening gather.old → (i : ℕ) (d : Lane) → i < length lanes.old
        → IsLane opening i (slice_index_or lanes.new i d) }
    ensures sent { (i : ℕ) (d : Lane) → i < length lanes.old
        → sent (slice_index_or lanes.new i d) ≡ settled_at (settled_of gather.old) i }
    ensures same { (i : ℕ) (d : Lane) → i < length lanes.old
        → IsSameBut (slice_index_or lanes.old i d) (slice_index_or lanes.new i d) }
    ensures count { length lanes.new ≡ length lanes.old }
{
    for i in 0..lanes.len() {
        reissue(&mut lanes[i], gather);
    }
}

/// Closes a round: what each lane sent is its entries in what is gathered, in order, and then those
/// that are still queued. The lanes and what is gathered stay as they were. It takes no memory, and
/// refuses nothing.
pub fn close_round(lanes: &mut [Lane], gather: &mut Gather) -> Result<(), NoMemory>
    requires { (opening : Opening) × AreWhole opening lanes.old gather.old }
    ensures ok { IsOk result }
    ensures closes { ClosesRound lanes.old gather.old lanes.new gather.new }
{
    // For the contract: a lane's entries in a front are a front of its entries, and all lanes
    // together have as many as a history.
    histories();
    histories_by_lane();
    recall_all(lanes, gather);
    look(gather);
    reissue_all(lanes, gather);
    Ok(())
}
