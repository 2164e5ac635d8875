//! Why a replay stopped.

ghost use Rattle.std.specs.Prelude.{◌≡◌};
ghost use Rattle.plum_replay.specs.declared.fault.ReplayFault.TheVariants as faults;
ghost use Rattle.plum_replay.specs.Faults.{fault_of_write, fault_of_segments};

use plum_base::NoMemory;
use plum_host::WriteRefusal;
use plum_packet::SegmentFault;
use std::alloc::AllocFailed;

/// Why a replay stopped before its end.
#[derive(Clone, Copy, Debug, PartialEq, Eq)]
pub enum ReplayFault {
    /// A read failed.
    Read,
    /// A write failed, or took nothing of a piece.
    Write,
    /// The capture has more records than a replay takes.
    Limit,
    NoMemory,
}

impl From<NoMemory> for ReplayFault {
    ghost from_gives = { λ _ e. e ≡ faults.NoMemory };

    fn from(_refusal: NoMemory) -> ReplayFault {
        ReplayFault::NoMemory
    }
}

impl<T: Drop> From<AllocFailed<T>> for ReplayFault {
    ghost from_gives = { λ _ e. e ≡ faults.NoMemory };

    fn from(_refusal: AllocFailed<T>) -> ReplayFault {
        ReplayFault::NoMemory
    }
}

impl From<WriteRefusal> for ReplayFault {
    ghost from_gives = { λ refusal e. e ≡ fault_of_write refusal };

    fn from(refusal: WriteRefusal) -> ReplayFault {
        match refusal {
            WriteRefusal::Failed => ReplayFault::Write,
            WriteRefusal::NoMemory => ReplayFault::NoMemory,
        }
    }
}

impl From<SegmentFault> for ReplayFault {
    ghost from_gives = { λ fault e. e ≡ fault_of_segments fault };

    fn from(fault: SegmentFault) -> ReplayFault {
        match fault {
            SegmentFault::Read => ReplayFault::Read,
            SegmentFault::Limit => ReplayFault::Limit,
            SegmentFault::NoMemory => ReplayFault::NoMemory,
        }
    }
}
