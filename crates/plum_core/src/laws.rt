//! Laws of histories and of the machine, each for whoever calls its function.

ghost use Rattle.plum_core.specs.Laws.{ShowsItsValue, FrontIsValid, FrontOfLane};
ghost use Rattle.plum_core.specs.Laws.{LegalToTheEnd, LegalByStation, LegalShows, TakingKeeps};
ghost use Rattle.plum_core.specs.Laws.{PartIsKept, LegalAtStart, PartOfLanes, PartIsCounted};
ghost use Rattle.plum_core.specs.Laws.{HistoryBegins};
ghost use Rattle.plum_core.specs.Laws.{PartJoins, ReadingsJoin, OverIsFrom, PartAdds};
ghost use Rattle.plum_core.specs.Laws.{OnePartEach, FewerReadings};
ghost use Rattle.plum_core.specs.Laws.{KeptByLane, PacketsOfLane, KeptIsByLane, LanesCounted};
ghost use Rattle.plum_core.specs.Laws.{NextEntryJoins, WaitingEntryJoins, OrderJoins, OrderStays};
ghost use Rattle.plum_core.specs.Laws.{SendingKeeps, FactsAtStart, StepKeepsFacts, EventsKeepFacts};
ghost use Rattle.plum_core.specs.Laws.{FrontIsGathered, AnswersArePredictions, FrontIsPublished};
ghost use Rattle.plum_core.specs.Laws.{FrontHoldsSeen, FrontsRise, RepliesExist, OneForEach};
ghost use Rattle.plum_core.specs.Laws.{NoOthers, GivingKeeps, OthersStand, EachOnce};

use plum_engine::one_value;
use plum_geo::near_stations_are_those_near;
use plum_seq::{greatest_keys, kept_packets};

/// What a station shows in a valid history is its value there.
pub fn station_shows_its_value()
    ensures { ShowsItsValue }
{}

/// What a front of a history keeps, and what joins it.
pub fn histories()
    ensures valid { FrontIsValid }
    ensures lane { FrontOfLane }
    ensures part { PartIsKept }
    ensures begins { HistoryBegins }
{
    // For the contract: what is known of keys and of values.
    kept_packets();
    one_value();
}

/// What the lanes of a history hold.
pub fn histories_by_lane()
    ensures kept { KeptByLane }
    ensures packets { PacketsOfLane }
    ensures whole { KeptIsByLane }
    ensures counted { LanesCounted }
{
    // For the contract: what is known of keys.
    kept_packets();
}

/// What a legal transcript says of each station, how it goes on by one segment, and when a
/// transcript is legal up to the end.
pub fn legal_transcripts()
    ensures end { LegalToTheEnd }
    ensures by_station { LegalByStation }
    ensures shows { LegalShows }
    ensures start { LegalAtStart }
    ensures of_lanes { PartOfLanes }
    ensures counted { PartIsCounted }
    ensures part { PartJoins }
    ensures readings { ReadingsJoin }
    ensures over { OverIsFrom }
    ensures adds { PartAdds }
    ensures each { OnePartEach }
    ensures fewer { FewerReadings }
{
    // For the contract: what is known of keys.
    kept_packets();
}

/// What taking a packet does to a lane in which nothing waits.
pub fn taking_keeps_backlog()
    ensures { TakingKeeps }
{
    // For the contract: what is known of keys and of values.
    kept_packets();
    one_value();
}

/// What a station gives for a packet, to a lane in which nothing waits, and what the packet leaves
/// alone.
pub fn giving_keeps_backlog()
    ensures backlog { GivingKeeps }
    ensures others { OthersStand }
{
    // For the contract: what is known of keys.
    kept_packets();
}

/// A valid history holds no key of a station twice.
pub fn valid_histories_hold_each_once()
    ensures { EachOnce }
{}

/// What sending the waiting entry of a lane does.
pub fn sending_keeps_validity()
    ensures valid { WaitingEntryJoins }
    ensures joins { NextEntryJoins }
    ensures order { OrderJoins }
    ensures others { OrderStays }
    ensures backlog { SendingKeeps }
{
    // For the contract: what is known of keys.
    kept_packets();
}

/// The six facts hold at each moment of the machine, after events that name what exists.
pub fn machine_keeps_facts()
    ensures start { FactsAtStart }
    ensures step { StepKeepsFacts }
    ensures events { EventsKeepFacts }
{
    // For the contract: what is known of keys and of values.
    kept_packets();
    one_value();
}

/// What the readings of a machine say, where it has replies.
pub fn readings_are_predictions()
    ensures front { FrontIsGathered }
    ensures answers { AnswersArePredictions }
    ensures published { FrontIsPublished }
    ensures seen { FrontHoldsSeen }
    ensures rising { FrontsRise }
{}

/// The machine replies to events that name what exists, and in one way.
pub fn machine_replies_in_one_way()
    ensures exist { RepliesExist }
    ensures one_each { OneForEach }
    ensures only { NoOthers }
{
    // For the contract: what is known of keys, and which stations are near.
    greatest_keys();
    near_stations_are_those_near();
}
