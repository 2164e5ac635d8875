//! The law of replays.

ghost use Rattle.plum_replay.specs.Laws.{OneTranscript};

use plum_core::near_stations_are_those_near;
use plum_packet::{bytes_are_one_capture, segments_hold_each_body};
use plum_text::texts_tell_a_run;

/// For a given setup, sites and capture, two legal transcripts with the same texts are the same: so
/// the texts tell one run and no other.
pub fn texts_tell_one_transcript()
    ensures { OneTranscript }
{
    // For the contract: a capture decodes in one way, and its tail is short; which stations are
    // near; and what the texts tell.
    segments_hold_each_body();
    bytes_are_one_capture();
    near_stations_are_those_near();
    texts_tell_a_run();
}
