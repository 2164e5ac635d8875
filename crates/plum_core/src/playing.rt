//! The machine over a list of events, on one thread.

ghost use Rattle.std.specs.Prelude.{◌≡◌, ◌^◌, ◌<◌, All, IfOk, vec_len};
ghost use Rattle.plum_core.specs.Machine.{start, AreReplies, NamesExist};

use crate::event::{Event, Reply};
use crate::machine::Machine;
use plum_base::{NoMemory, Setup, Sites};
use std::alloc::Global;

/// The replies to the events, one for each, in order.
pub fn play(
    alloc: Global,
    sites: &Sites,
    setup: &Setup,
    events: Vec<Event>,
) -> Result<Vec<Reply>, NoMemory>
    requires exist { All (NamesExist setup.now sites.now) events.items }
    requires few { vec_len events < 2 ^ 32 }
    ensures { IfOk result (λ replies.
        AreReplies setup.now sites.now start events.items replies.items) }
{
    let mut machine = Machine::new(alloc, sites, setup)?;
    let mut replies = Vec::new(alloc);
    for event in events {
        replies.push(machine.step(alloc, sites, setup, event)?)?;
    }
    Ok(replies)
}
