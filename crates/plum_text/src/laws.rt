//! What lines and texts tell, each law for whoever calls its function.

ghost use Rattle.plum_text.specs.Laws.{OneJournalLine, OneOutLine, JournalTells, OutputTells};
ghost use Rattle.plum_text.specs.Laws.{ClassesAreOfValues, SumsAddUp, MarksFromOne};
ghost use Rattle.plum_text.specs.Laws.{PositionsFromOne};

use plum_scale::texts_are_distinct;

/// The bytes of a line determine its fields.
pub fn lines_tell_their_fields()
    ensures journal { OneJournalLine }
    ensures output { OneOutLine }
{
    // For the contract: a text is that of one class or one intensity.
    texts_are_distinct();
}

/// For given sites the two texts determine all that their lines show.
pub fn texts_tell_a_run()
    ensures journal { JournalTells }
    ensures output { OutputTells }
{
    // For the contract: a text is that of one class or one intensity.
    texts_are_distinct();
}

/// What holds of the lines of the two texts, and of no line alone.
pub fn lines_of_texts()
    ensures class { ClassesAreOfValues }
    ensures sum { SumsAddUp }
    ensures mark { MarksFromOne }
    ensures position { PositionsFromOne }
{}
