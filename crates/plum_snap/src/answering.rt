//! The targets of an area, and their answers.

ghost use Rattle.std.specs.Prelude.{◌≡◌, ◌<◌, ◌≤◌, List, length, All, IfOk};
ghost use Rattle.std.specs.Prelude.{None, replicate};
ghost use Rattle.plum_base.specs.declared.entry.Entry.{Entry};
ghost use Rattle.plum_base.specs.declared.sites.TargetSite.{TargetSite};
ghost use Rattle.plum_base.specs.Sites.{AreNumbersOf, SitesView, targets_of, MOST_TARGETS};
ghost use Rattle.plum_board.specs.Board.{StandsFor};
ghost use Rattle.plum_core.specs.Transcript.{ArePredictions};

use plum_base::{Answers, Name, NoMemory, Sites, TargetNo};
use plum_board::Board;
use std::alloc::Global;

/// The numbers of the targets of an area, in file order.
pub(crate) fn numbers_in(
    alloc: Global,
    sites: &Sites,
    area: &Name,
) -> Result<Vec<TargetNo>, NoMemory>
    ensures numbers { IfOk result (λ v.
        AreNumbersOf sites.now.targets v.items (targets_of area.now sites.now.targets)) }
    ensures few { IfOk result (λ v. length v.items ≤ MOST_TARGETS) }
{
    let mut numbers = Vec::new(alloc);
    for (n, target) in sites.targets().iter().enumerate() {
        if target.area == *area {
            numbers.push(TargetNo(n as u16))?;
        }
    }
    Ok(numbers)
}

/// Room for so many answers, each of them none.
pub(crate) fn unanswered(alloc: Global, count: usize) -> Result<Answers, NoMemory>
    ensures { IfOk result (λ answers. answers ≡ replicate count None) }
{
    let mut answers = Answers::new(alloc)?;
    for _ in 0..count {
        answers.push(None)?;
    }
    Ok(answers)
}

/// Puts the prediction at each of these targets into the room that was taken for it.
pub(crate) fn answer(board: &Board, numbers: &[TargetNo], answers: &mut Answers)
    requires exist { All (λ n. n.0 < length board.now.sites.targets) numbers.now }
    requires few { length numbers.now ≤ MOST_TARGETS }
    requires room { length answers.old ≡ length numbers.now }
    ensures room { length answers.new ≡ length answers.old }
    ensures predictions { (sites : SitesView) (entries : List Entry) (targets : List TargetSite)
        → StandsFor board.now sites entries → AreNumbersOf sites.targets numbers.now targets
        → ArePredictions sites.stations entries targets answers.new }
{
    for (i, number) in numbers.iter().enumerate() {
        answers.set(i as u16, board.predict(*number));
    }
}
