//! The gatherer: it takes the entries that the lanes sent, in the order of the queue.

ghost use Rattle.std.specs.Prelude.{◌≡◌, ◌++◌, IfNone};
ghost use Rattle.std.specs.Option.{option_to_list};

use crate::rule::{Ring, Ticket};
use crate::steps::pop;
use plum_base::Entry;
use plum_core::valid_histories_hold_each_once;
use std::alloc::Global;
use std::sync::{Arc, Wait};

/// The gatherer of lanes. Contracts see what it gathered, and what it knows of the lanes.
#[derive(Drop)]
pub struct Gather {
    pub(crate) ring: Arc<Ring, Global>,
    pub(crate) pass: Ticket,
}

impl Gather {
    ghost use Rattle.plum_lanes.specs.Opening.{Opening};
    ghost use Rattle.plum_lanes.specs.Gathering.{gathered, settled_of, IsGather, KeepsOpening};
    ghost use Rattle.plum_lanes.specs.Gathering.{FoundEmpty};

    /// The first entry of the queue, or None where it was empty. What is gathered stays a valid
    /// history. None tells that nothing is missing of what the lanes had sent when a round was
    /// closed last.
    pub fn next<R: Wait>(&mut self, rt: &R) -> Option<Entry>
        requires { (opening : Opening) × IsGather opening self.old }
        ensures gather { KeepsOpening self.old self.new }
        ensures gathered { gathered self.new ≡ gathered self.old ++ option_to_list result }
        ensures settled { settled_of self.new ≡ settled_of self.old }
        ensures all { IfNone result (FoundEmpty self.old self.new) }
    {
        // For the contract: a valid history holds each entry once.
        valid_histories_hold_each_once();
        pop(rt, &self.ring, &mut self.pass)
    }
}
