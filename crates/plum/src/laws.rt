//! The laws of the texts of the plain commands, and of the summary of a drill.

ghost use Rattle.plum.specs.Laws.{OnePlainText, EachHasPlainText, AppendsTextOfFiles};
ghost use Rattle.plum.specs.Laws.{BeginsTextOfFiles, OneDrillSummary};

use plum_core::{histories, sending_keeps_validity, taking_keeps_backlog};
use plum_engine::one_value;
use plum_packet::{bytes_are_one_capture, given_bodies_begin, segments_hold_each_body};
use plum_sites::files_have_one_answer;

/// A law: a plain command has one text over a setup file, a station file and a capture. That is
/// what it appends, or a beginning of it where it breaks off; each capture has one.
pub fn plain_commands_have_one_text()
    ensures one { OnePlainText }
    ensures each { EachHasPlainText }
    ensures appended { AppendsTextOfFiles }
    ensures begun { BeginsTextOfFiles }
{
    // For the contract: all bytes are a capture, which decodes in one way; a file states one list
    // of stations; and how a history goes on.
    bytes_are_one_capture();
    segments_hold_each_body();
    given_bodies_begin();
    files_have_one_answer();
    histories();
    taking_keeps_backlog();
    sending_keeps_validity();
}

/// A law: a drill has one summary.
pub fn drills_have_one_summary()
    ensures { OneDrillSummary }
{
    // For the contract: a capture decodes in one way, and a station has one value.
    segments_hold_each_body();
    one_value();
}
