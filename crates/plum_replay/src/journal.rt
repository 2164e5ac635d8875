//! The journal lines of a segment.

ghost use Rattle.std.specs.Prelude.{◌≡◌, ◌+◌, ◌<◌, ◌^◌, ◌++◌, length, OnOk};
ghost use Rattle.plum_text.specs.Texts.{code_of_station};
ghost use Rattle.plum_replay.specs.Parts.{notes_text};

use plum_base::{Bytes, NoMemory, Note, StationNo, StationSite};
use plum_text::{JournalLine, write_journal};

/// The code of a station, 0 where it is not listed.
fn code_of_station(stations: &[StationSite], station: StationNo) -> u16
    ensures { result ≡ code_of_station stations.now station.0 }
{
    match stations.get(station.0 as usize) {
        Some(site) => site.code,
        None => 0,
    }
}

/// Appends a line for each note of a segment, behind so many lines of the journal.
pub fn put_notes(
    out: &mut Bytes,
    stations: &[StationSite],
    segment: u32,
    before: u32,
    notes: &[Note],
) -> Result<(), NoMemory>
    requires few { before + length notes.now < 2 ^ 32 }
    ensures { OnOk result (out.new
        ≡ out.old ++ notes_text stations.now segment (before + 1) notes.now) }
{
    for (i, note) in notes.iter().enumerate() {
        let line = JournalLine {
            n: before + i as u32 + 1,
            segment,
            station: code_of_station(stations, note.station),
            key: note.key,
            fresh: note.fresh,
            value: note.value,
        };
        write_journal(out, &line)?;
    }
    Ok(())
}
