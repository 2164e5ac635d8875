//! The law of counts.

ghost use Rattle.plum_packet.specs.Laws.{CountsAddUp, BodiesAreCounted, CountsGoOn};

/// A law: each body of a capture that is no mark is counted once, in its segment: it is kept, a
/// repeat or refused.
pub fn bodies_are_counted()
    ensures sums { CountsAddUp }
    ensures all { BodiesAreCounted }
    ensures goes_on { CountsGoOn }
{}
