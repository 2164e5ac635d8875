//! Fields from the bytes of a line.
//!
//! A line is cut into words, each word is read as the field that stands there, and the fields are
//! answered where writing them gives these very bytes. So the readers of words need not refuse what
//! nobody writes: a leading zero, a sign of no use, a second space.

ghost use Rattle.std.specs.Prelude.{◌≡◌, Some, IfSome};
ghost use Rattle.plum_text.specs.declared.lines.JournalLine.{JournalLine};
ghost use Rattle.plum_text.specs.declared.lines.OutLine.{OutLine};
ghost use Rattle.plum_text.specs.Lines.{IsJournalLine, IsOutLine};

mod fields;
mod told;
mod words;

use crate::bytes::{journal_bytes, out_bytes};
use crate::lines::{JournalLine, OutLine};
use told::{journal_told, out_told};

/// The fields of a line of the journal: none exactly where the bytes are no such line, its line
/// feed included.
pub fn read_journal(bytes: &[u8]) -> Option<JournalLine>
    ensures some { IfSome result (λ l. IsJournalLine l bytes.now) }
    ensures every { (l : JournalLine) → IsJournalLine l bytes.now → result ≡ Some l }
{
    let line = journal_told(bytes)?;
    if journal_bytes(&line).as_slice() == bytes {
        Some(line)
    } else {
        None
    }
}

/// The fields of a line of the output: none exactly where the bytes are no such line, its line feed
/// included.
pub fn read_out(bytes: &[u8]) -> Option<OutLine>
    ensures some { IfSome result (λ l. IsOutLine l bytes.now) }
    ensures every { (l : OutLine) → IsOutLine l bytes.now → result ≡ Some l }
{
    let line = out_told(bytes)?;
    if out_bytes(&line).as_slice() == bytes {
        Some(line)
    } else {
        None
    }
}
