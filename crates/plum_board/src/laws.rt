//! The law of a board and an entry more.

ghost use Rattle.plum_board.specs.Board.{StandsForOneMore};

use plum_geo::entries_are_shown_in_turn;

/// The board after an entry more is the board of all of them.
pub fn entries_add_up()
    ensures { StandsForOneMore }
{
    entries_are_shown_in_turn();
}
