//! A board takes in entries, so that two copies of it can be kept alike.

use crate::board::Board;
use left_right::Absorb;
use plum_base::Entry;
use std::alloc::AllocError;

/// It never fails.
impl Absorb<Entry> for Board {
    type State = Board;

    ghost use Rattle.plum_board.specs.Board.{board_after};

    ghost state = { λ board. board };

    ghost applied = { board_after };

    ghost never_fails = { Unit {0} };

    fn absorb_first(&mut self, entry: &Entry, _other: &Board) -> Result<(), AllocError> {
        self.apply(entry);
        Ok(())
    }
}
