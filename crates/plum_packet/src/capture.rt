//! The law of captures.

ghost use Rattle.plum_packet.specs.Laws.{EachIsCapture, OneCapture, TailIsShort, RowsGoOn};

/// A law: all bytes are a capture in exactly one way, with a short tail. Two rows of records at the
/// start of the same bytes agree as far as both go.
pub fn bytes_are_one_capture()
    ensures exist { EachIsCapture }
    ensures only { OneCapture }
    ensures tail { TailIsShort }
    ensures fronts { RowsGoOn }
{}
