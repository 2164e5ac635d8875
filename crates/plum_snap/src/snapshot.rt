//! What is published: a board, with the front that it is the board of.

use crate::front::Front;
use left_right::Absorb;
use plum_base::Entry;
use plum_board::Board;
use std::alloc::AllocError;

/// The value that the two copies hold.
#[derive(Drop)]
pub struct Snapshot {
    pub board: Board,
    pub front: Front,
}

/// An entry, with the front that it ends.
#[derive(Drop)]
pub struct Addition {
    pub entry: Entry,
    pub front: Front,
}

/// It never fails.
impl Absorb<Addition> for Snapshot {
    type State = Snapshot;

    ghost use Rattle.plum_snap.specs.Snapshots.{snapshot_after};

    ghost state = { λ shown. shown };

    ghost applied = { snapshot_after };

    ghost never_fails = { Unit {0} };

    fn absorb_first(&mut self, addition: &Addition, _other: &Snapshot) -> Result<(), AllocError> {
        self.board.apply(&addition.entry);
        self.front = addition.front.again();
        Ok(())
    }
}
