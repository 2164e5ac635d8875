//! The centre of one replay.

ghost use Rattle.std.specs.Prelude.{◌≡◌, IfOk};
ghost use Rattle.plum_centre.specs.Centre.{CentreId, IsOf, IsNew};

use plum_base::{NoMemory, Setup, Sites};
use plum_centre::Centre;
use plum_snap::{Doors, OpenFault, Session};
use std::alloc::Global;
use std::sync::Wait;
use std::thread;

/// A new centre. It is opened again where its board was refused a place for a reader.
pub fn open_centre<R: Wait>(
    rt: &R,
    alloc: Global,
    sites: &Sites,
    setup: &Setup,
) -> Result<Centre, NoMemory>
    ensures { IfOk result (λ centre. (id : CentreId) × IsOf setup.now sites.now id
        × IsNew id centre) }
{
    let mut doors = Doors::new();
    for _ in rt.forever() {
        match Centre::open(rt, alloc, sites, setup, &mut doors) {
            Ok(centre) => return Ok(centre),
            Err(OpenFault::NoPlace) => thread::yield_now(),
            Err(OpenFault::NoMemory) => return Err(NoMemory),
        }
    }
    unreachable!()
}

/// Uses up the feeder of a centre that is given up: its sessions.
pub fn end_centre<R: Wait>(rt: &R, centre: Centre) -> Vec<Session>
    ensures { result ≡ centre.sessions }
{
    let Centre {
        lanes: _lanes,
        feeder,
        sessions,
    } = centre;
    feeder.end(rt);
    sessions
}
