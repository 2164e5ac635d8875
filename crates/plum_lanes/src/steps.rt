//! Each kind of step on the queue.

ghost use Rattle.std.specs.Prelude.{◌≡◌, ◌+◌, [], ◌∷◌, ◌++◌, length, true, Some, IsSome, IfOk};
ghost use Rattle.std.specs.Prelude.{MatchOption, MatchResult};
ghost use Rattle.crossbeam_queue.specs.Fifo.{Held};
ghost use Rattle.crossbeam_queue.specs.Passes.{view, IsPassOf, IsSamePass, ruled_capacity};
ghost use Rattle.plum_lanes.specs.declared.rule.Basis.{Basis};
ghost use Rattle.plum_lanes.specs.Opening.{basis_of};
ghost use Rattle.plum_lanes.specs.Rule.{IsNext, Gathers, IsSentThen, IsGatheredThen, gatherer};
ghost use Rattle.plum_lanes.specs.Rule.{sender, blank, settled_at, settle, MayGather};

use crate::rule::{Gets, Leaves, Named, Names, Ring, Sends, Spares, Ticket};
use plum_base::{Entry, NoMemory, Setup, Sites};
use plum_core::{histories, sending_keeps_validity};
use std::alloc::Global;
use std::marker::Brand;
use std::sync::Wait;

/// The gatherer's pass is told the setup and how many stations there are.
fn name<N: Named>(ring: &Ring, pass: &mut Ticket, sites: &Sites, setup: &Setup)
    requires basis { N.basis ≡ Some (basis_of setup.now sites.now) }
    requires pass { IsPassOf ring.now pass.old × (view pass.old ≡ blank) }
    ensures same { IsSamePass pass.old pass.new }
    ensures view { view pass.new ≡ gatherer (Some (basis_of setup.now sites.now)) [] 0 [] }
{
    ring.another::<Names<N>>(pass);
}

/// The queue of a setup, and the pass of its gatherer.
pub fn make(alloc: Global, sites: &Sites, setup: &Setup) -> Result<(Ring, Ticket), NoMemory>
    ensures ring { IfOk result (λ r. IsPassOf r.0 r.1 × (ruled_capacity r.0 ≡ setup.now.queue)) }
    ensures view { IfOk result
        (λ r. view r.1 ≡ gatherer (Some (basis_of setup.now sites.now)) [] 0 []) }
{
    let (ring, mut pass) = Ring::ruled(alloc, setup.queue as usize)?;
    name::<Brand>(&ring, &mut pass, sites, setup);
    Ok((ring, pass))
}

/// The pass of the next lane, which has sent what is settled of it.
pub fn split(ring: &Ring, gather: &mut Ticket) -> Ticket
    requires { MayGather ring.now gather.old }
    ensures same { IsSamePass gather.old gather.new }
    ensures gather { view gather.new ≡ gatherer (view gather.old).basis (view gather.old).gathered
        ((view gather.old).out + 1) (view gather.old).settled }
    ensures pass { IsPassOf ring.now result }
    ensures lane { view result ≡ sender (view gather.old).basis (view gather.old).out
        (settled_at (view gather.old).settled (view gather.old).out) }
{
    ring.another::<Leaves>(gather)
}

/// The pass of the last lane comes back, and what it sent is settled.
pub fn join(ring: &Ring, gather: &mut Ticket, lane: Ticket)
    requires gather { MayGather ring.now gather.old }
    requires lane { IsPassOf ring.now lane × ((view lane).sends ≡ true) }
    requires last { (view lane).lane + 1 ≡ (view gather.old).out }
    ensures same { IsSamePass gather.old gather.new }
    ensures gather { view gather.new ≡ gatherer (view gather.old).basis (view gather.old).gathered
        (view lane).lane (settle (view gather.old).settled (view lane).lane (view lane).sent) }
{
    ring.absorb::<Leaves>(gather, lane);
}

/// A pass that knows nothing.
pub fn spare(ring: &Ring, gather: &mut Ticket) -> Ticket
    requires { MayGather ring.now gather.old }
    ensures same { IsSamePass gather.old gather.new × (view gather.new ≡ view gather.old) }
    ensures pass { IsPassOf ring.now result }
{
    ring.another::<Spares>(gather)
}

/// Sends an entry that is the right next one after what the lane sent. It comes back where the
/// queue was full, with what that tells the lane.
pub fn send<R: Wait>(rt: &R, ring: &Ring, lane: &mut Ticket, entry: Entry) -> Result<(), Entry>
    requires pass { IsPassOf ring.now lane.old × ((view lane.old).sends ≡ true) }
    requires lane { entry.lane.0 ≡ (view lane.old).lane }
    requires next { (basis : Basis) → (view lane.old).basis ≡ Some basis
        → (ruled_capacity ring.now ≡ basis.setup.queue)
        × IsNext basis (view lane.old).sent entry }
    ensures same { IsSamePass lane.old lane.new }
    ensures sent { MatchResult result
        (λ _. view lane.new ≡ sender (view lane.old).basis (view lane.old).lane
        ((view lane.old).sent ++ entry ∷ []))
        (λ back. (back ≡ entry) × (view lane.new ≡ view lane.old)
        × Held (ruled_capacity ring.now) (IsSentThen (view lane.old))) }
{
    // For the contract: such an entry keeps the history valid.
    sending_keeps_validity();
    histories();
    ring.push_as::<Sends, R>(rt, lane, entry)
}

/// Takes the first entry of the queue. None where it was empty, with what that tells the gatherer.
pub fn pop<R: Wait>(rt: &R, ring: &Ring, gather: &mut Ticket) -> Option<Entry>
    requires { MayGather ring.now gather.old }
    ensures same { IsSamePass gather.old gather.new }
    ensures popped { MatchOption result
        ((view gather.new ≡ view gather.old) × Held 0 (IsGatheredThen (view gather.old)))
        (λ e. Gathers (view gather.old) e (view gather.new)) }
{
    // For the contract: a front of a valid history is valid.
    histories();
    ring.pop_as::<Gets, R>(rt, gather)
}
