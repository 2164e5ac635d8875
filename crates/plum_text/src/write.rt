//! Lines from their fields.

ghost use Rattle.std.specs.Prelude.{◌≡◌, ◌++◌, OnOk, OnErr};
ghost use Rattle.plum_text.specs.Lines.{journal_line, out_line, plain_line};

use crate::bytes::{journal_bytes, out_bytes, plain_bytes};
use crate::lines::{JournalLine, OutLine, PlainLine};
use plum_base::{Bytes, NoMemory};

/// Appends a line of the journal. A refusal leaves what was written.
pub fn write_journal(out: &mut Bytes, line: &JournalLine) -> Result<(), NoMemory>
    ensures ok { OnOk result (out.new ≡ out.old ++ journal_line line.now) }
    ensures err { OnErr result (out.new ≡ out.old) }
{
    out.extend(journal_bytes(line).as_slice())
}

/// Appends a line of the output. A refusal leaves what was written.
pub fn write_out(out: &mut Bytes, line: &OutLine) -> Result<(), NoMemory>
    ensures ok { OnOk result (out.new ≡ out.old ++ out_line line.now) }
    ensures err { OnErr result (out.new ≡ out.old) }
{
    out.extend(out_bytes(line).as_slice())
}

/// Appends a line of a command that writes no journal. A refusal leaves what was written.
pub fn write_plain(out: &mut Bytes, line: &PlainLine) -> Result<(), NoMemory>
    ensures ok { OnOk result (out.new ≡ out.old ++ plain_line line.now) }
    ensures err { OnErr result (out.new ≡ out.old) }
{
    out.extend(plain_bytes(line).as_slice())
}
