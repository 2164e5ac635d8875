//! The writer of the two copies, and the readers that it makes.

ghost use Rattle.std.specs.Prelude.{◌≡◌, [], drop, true, IfOk, MatchResult};
ghost use Rattle.left_right.specs.Sides.{view};
ghost use Rattle.plum_snap.specs.Rule.{IsAsBefore, next_of, saw};
ghost use Rattle.plum_snap.specs.Snapshots.{Grows, snapshot_after};

use crate::rule::{Notes, Sees, Shared, View};
use crate::snapshot::{Addition, Snapshot};
use left_right::reader::Reader;
use left_right::writer::Writer;
use plum_base::NoMemory;
use std::alloc::AllocError;
use std::sync::Wait;

pub(crate) type Ink = Writer<Snapshot, Addition, View, Shared>;

pub(crate) type Eye = Reader<Snapshot, View, Shared>;

/// A new reader. It is told what the writer knows at once, since the two can be shown to be of one
/// table only here.
pub(crate) fn reader(writer: &mut Ink) -> Result<Eye, AllocError>
    requires { (view writer.old.desk.place).known ≡ true }
    ensures reader { IfOk result (λ r. view r.place ≡ view writer.old.desk.place) }
    ensures place { view writer.new.desk.place ≡ view writer.old.desk.place }
    ensures same { IsAsBefore writer.old writer.new }
{
    let mut reader = writer.factory().reader()?;
    reader.learn::<Notes>(writer.tell::<Notes>());
    Ok(reader)
}

/// Leaves an addition pending.
pub(crate) fn add(writer: &mut Ink, addition: Addition) -> Result<(), NoMemory>
    ensures desk { writer.new.desk ≡ writer.old.desk }
    ensures pending { MatchResult result
        (λ _. next_of writer.new ≡ snapshot_after (next_of writer.old) addition)
        (λ _. next_of writer.new ≡ next_of writer.old) }
{
    writer.append(addition).map_err(|_| NoMemory)
}

/// Shows the readers all that is pending.
pub(crate) fn publish<R: Wait>(rt: &R, writer: Ink) -> Ink
    requires grows { Grows writer.desk.shown.value (next_of writer) }
    ensures shown { result.desk.shown.value ≡ next_of writer }
    ensures none { drop result.behind result.log.items ≡ [] }
    ensures seen { view result.desk.place ≡ saw (next_of writer) }
{
    writer.publish_as::<Sees, R>(rt).0
}
