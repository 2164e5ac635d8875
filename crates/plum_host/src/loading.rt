//! Reading a whole input.

ghost use Rattle.std.specs.Prelude.{◌≡◌, ℕ, ◌+◌, ◌-◌, ◌^◌, ◌<◌, ◌≤◌, length, vec_len};
ghost use Rattle.std.specs.Prelude.{IfOk, IfErr, OnOk, IsErrOf};
ghost use Rattle.plum_host.specs.Counting.{CountsNothing};
ghost use Rattle.plum_host.specs.Frames.{OnlyReads};
ghost use Rattle.plum_host.specs.Loading.{IsLoadedWhole, TakesAtMost, IsTooLong, CountsLoadFault};

use crate::host::{Failed, Host, In};
use plum_base::{Bytes, NoMemory};
use std::alloc::Global;

/// Why an input was not loaded: a read failed, it has more bytes than the limit, or want of memory.
#[derive(Clone, Copy, Debug, PartialEq, Eq)]
pub enum LoadFault {
    Read,
    TooLong { limit: u32 },
    NoMemory,
}

impl From<Failed> for LoadFault {
    ghost use Rattle.plum_host.specs.declared.loading.LoadFault.TheVariants as faults;

    ghost from_gives = { λ _ e. e ≡ faults.Read };

    fn from(_failure: Failed) -> LoadFault {
        LoadFault::Read
    }
}

impl From<NoMemory> for LoadFault {
    ghost use Rattle.plum_host.specs.declared.loading.LoadFault.TheVariants as faults;

    ghost from_gives = { λ _ e. e ≡ faults.NoMemory };

    fn from(_refusal: NoMemory) -> LoadFault {
        LoadFault::NoMemory
    }
}

/// The bytes of the longest read.
const PIECE: usize = 65_536;

fn empty_piece(alloc: Global) -> Result<Vec<u8>, NoMemory>
    ensures { IfOk result (λ piece. vec_len piece ≡ PIECE) }
{
    Ok(vec![in alloc; 0u8; PIECE]?)
}

/// Reads an input to its end, or until it has more than `limit` bytes.
pub fn load<H: Host>(alloc: Global, host: &mut H, file: In, limit: u32) -> Result<Bytes, LoadFault>
    requires { limit < 2 ^ 32 - 1 }

    // The whole input, within the limit.
    ensures whole { IfOk result (λ bytes.
        IsLoadedWhole file bytes (H.told host.old) (H.told host.new)) }
    ensures within { IfOk result (λ bytes. length bytes ≤ limit) }

    // The limit is told where the input has more bytes. It is left at the first byte too many.
    ensures number { (told : ℕ) → IsErrOf result (LoadFault.TooLong told) → told ≡ limit }
    ensures too_long { IsErrOf result (LoadFault.TooLong limit)
        → IsTooLong limit file (H.told host.old) (H.told host.new) }

    // A read fails within the limit.
    ensures read_within { IsErrOf result LoadFault.Read
        → TakesAtMost limit file (H.told host.old) (H.told host.new) }

    // Whatever it answers, it takes no more than one byte too many.
    ensures at_most { TakesAtMost (limit + 1) file (H.told host.old) (H.told host.new) }

    // The one failed read that ended it is counted, and nothing else.
    ensures no_fault { OnOk result (CountsNothing (H.told host.old) (H.told host.new)) }
    ensures fault { IfErr result (λ fault.
        CountsLoadFault fault (H.told host.old) (H.told host.new)) }

    ensures frame { OnlyReads file (H.told host.old) (H.told host.new) }
{
    let mut buffer = empty_piece(alloc)?;
    let piece = buffer.as_mut_slice();
    let mut bytes = Bytes::new(alloc)?;
    'reads: loop {
        // A byte behind the limit shows that the input is too long.
        let room = limit as usize - bytes.as_slice().len();
        let most = piece.len().min(room + 1);
        let count = host.read(file, &mut piece[..most])?;
        if count == 0 {
            return Ok(bytes);
        }
        if count > room {
            return Err(LoadFault::TooLong { limit });
        }
        bytes.extend(&piece[..count])?;
    }
}
