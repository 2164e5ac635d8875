//! A centre, and how it is opened.

ghost use Rattle.std.specs.Prelude.{IfOk};
ghost use Rattle.plum_snap.specs.Refused.{CountsRefused};

use crate::feeder::Feeder;
use plum_base::{Notes, Setup, Sites};
use plum_lanes::{Lane, open as open_lanes};
use plum_snap::{Doors, OpenFault, Session, open as open_board};
use std::alloc::Global;
use std::sync::Wait;

/// A centre. It keeps no fact over its fields, so that a round can lend them apart. It is not
/// `Drop`: end its feeder by `Feeder::end`.
pub struct Centre {
    /// In the order of their numbers.
    pub lanes: Vec<Lane>,
    pub feeder: Feeder,
    /// One for each area, in the order of the areas.
    pub sessions: Vec<Session>,
}

impl Centre {
    ghost use Rattle.plum_centre.specs.Centre.{CentreId, IsOf, IsNew};

    /// A centre for a setup and sites. Nothing is taken, sent, gathered, published or read. It
    /// takes the memory of its lanes, of its board and of its sessions here.
    pub fn open<R: Wait>(
        rt: &R,
        alloc: Global,
        sites: &Sites,
        setup: &Setup,
        doors: &mut Doors,
    ) -> Result<Centre, OpenFault>
        ensures new { IfOk result (λ centre. (id : CentreId) × IsOf setup.now sites.now id
            × IsNew id centre) }
        ensures place { CountsRefused result doors.old doors.new }
    {
        let Ok((lanes, gather)) = open_lanes(alloc, sites, setup) else {
            return Err(OpenFault::NoMemory);
        };
        let Ok(notes) = Notes::new(alloc) else {
            return Err(OpenFault::NoMemory);
        };
        let (publisher, sessions) = open_board(rt, alloc, sites, doors)?;
        Ok(Centre {
            lanes,
            feeder: Feeder::new(gather, publisher, notes),
            sessions,
        })
    }
}
