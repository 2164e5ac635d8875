//! The reading of an area.

ghost use Rattle.std.specs.Prelude.{◌≡◌, length, IfOk};
ghost use Rattle.plum_base.specs.Sites.{targets_of};
ghost use Rattle.plum_geo.specs.Shown.{AreShown};
ghost use Rattle.plum_core.specs.Transcript.{ArePredictions};

use plum_base::{Answers, Entry, Name, NoMemory, Reading, Sites};
use plum_geo::Shown;
use std::alloc::Global;

/// What so many stations show after a history.
fn shown_in(alloc: Global, stations: usize, history: &[Entry]) -> Result<Shown, NoMemory>
    ensures { IfOk result (λ shown. AreShown shown stations history.now) }
{
    let mut shown = Shown::new(alloc, stations)?;
    for entry in history {
        shown.apply(entry);
    }
    Ok(shown)
}

/// The reading of an area over a history: its length, and the prediction at each target of the
/// area, in file order.
pub fn read_area(
    alloc: Global,
    sites: &Sites,
    area: &Name,
    history: &[Entry],
) -> Result<Reading, NoMemory>
    ensures front { IfOk result (λ reading. reading.front ≡ length history.now) }
    ensures answers { IfOk result (λ reading. ArePredictions sites.now.stations history.now
        (targets_of area.now sites.now.targets) reading.answers) }
{
    let (stations, targets) = (sites.stations(), sites.targets());
    let shown = shown_in(alloc, stations.len(), history)?;
    let mut answers = Answers::new(alloc)?;
    for target in targets {
        if target.area == *area {
            answers.push(shown.predict(stations, target))?;
        }
    }
    Ok(Reading {
        front: history.len() as u64,
        answers,
    })
}
