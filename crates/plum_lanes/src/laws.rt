//! What lanes and their gatherer say together of packets, for whoever calls the function.

ghost use Rattle.plum_lanes.specs.Laws.{GatheredAreKept};

/// What is gathered of each lane is the kept ones of its packets, once all that was sent is.
pub fn gathered_are_kept()
    ensures { GatheredAreKept }
{}
