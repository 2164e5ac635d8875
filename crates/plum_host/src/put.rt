//! Writing a whole piece.

ghost use Rattle.std.specs.Prelude.{◌≡◌, OnOk, OnErr, IsErrOf};
ghost use Rattle.plum_host.specs.Faults.{HasRisen};
ghost use Rattle.plum_host.specs.Frames.{OnlyWrites};
ghost use Rattle.plum_host.specs.Told.{Appends, AppendsFront};

use crate::host::{Host, To, WriteRefusal};

/// Appends the whole piece to an output, by as many writes as that takes. A write that takes
/// nothing of the rest is one that failed.
pub fn put_all<H: Host>(host: &mut H, file: To, bytes: &[u8]) -> Result<(), WriteRefusal>
    ensures whole { OnOk result
        (Appends ((H.told host.old).held file) ((H.told host.new).held file) bytes.now) }
    ensures front { OnErr result
        (AppendsFront ((H.told host.old).held file) ((H.told host.new).held file) bytes.now) }

    // A piece that failed is one fault more. Want of memory, the host's word, is none.
    ensures failed { IsErrOf result WriteRefusal.Failed
        → HasRisen (H.told host.old).write_faults (H.told host.new).write_faults }
    ensures no_memory { IsErrOf result WriteRefusal.NoMemory
        → (H.told host.new).write_faults ≡ (H.told host.old).write_faults }
    ensures no_fault { OnOk result
        ((H.told host.new).write_faults ≡ (H.told host.old).write_faults) }

    ensures frame { OnlyWrites file (H.told host.old) (H.told host.new) }
{
    let mut rest = bytes;
    while !rest.is_empty() {
        match host.write(file, rest)? {
            0 => return Err(WriteRefusal::Failed),
            n => rest = &rest[n..],
        }
    }
    Ok(())
}
