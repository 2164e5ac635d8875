//! The laws of keys, each for whoever calls its function.

ghost use Rattle.plum_seq.specs.Laws.{KeptJoins, RepeatLeaves, FreshJoins, FreshLeaves};
ghost use Rattle.plum_seq.specs.Laws.{KeptInParts, KeptByStation, KeptAlone, FreshAlone};
ghost use Rattle.plum_seq.specs.Laws.{KeptAfterKept, FreshAfterKept, KeptByOwn, FreshByOwn};
ghost use Rattle.plum_seq.specs.Laws.{LastIsGreatest, GreatestIs, NoneGreatest, OneGreatest};

/// What one more packet does to the kept ones, and what the kept ones alone say.
pub fn kept_packets()
    ensures joins { KeptJoins }
    ensures leaves { RepeatLeaves }
    ensures fresh_joins { FreshJoins }
    ensures fresh_leaves { FreshLeaves }
    ensures parts { KeptInParts }
    ensures by_station { KeptByStation }
    ensures alone { KeptAlone }
    ensures fresh_alone { FreshAlone }
    ensures after_kept { KeptAfterKept }
    ensures fresh_after_kept { FreshAfterKept }
    ensures by_own { KeptByOwn }
    ensures fresh_by_own { FreshByOwn }
{}

/// The greatest key of a station.
pub fn greatest_keys()
    ensures last { LastIsGreatest }
    ensures is { GreatestIs }
    ensures none { NoneGreatest }
    ensures one { OneGreatest }
{}
