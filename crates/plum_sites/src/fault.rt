//! Why a site file gives no list.

ghost use Rattle.std.specs.Prelude.{◌≡◌};
ghost use Rattle.plum_sites.specs.declared.fault.SitesRefusal.TheVariants as refusals;

use plum_base::NoMemory;
use std::alloc::AllocFailed;
use thiserror::Error;

/// What is wrong first with a site file. Rows are numbered as `csv` gives records, the header
/// being row 1: there is no header; the row has another number of fields than the header; a number
/// field is no number; a number is out of its range, or a name is none; a code or a target's name
/// stood in an earlier row; the row is one too many, or has one area too many.
#[derive(Clone, Copy, Debug, PartialEq, Eq)]
pub enum SiteFault {
    Header,
    Columns(u32),
    Number(u32),
    Range(u32),
    Twice(u32),
    TooMany(u32),
}

/// A site file that is at fault, or memory that is wanting.
#[derive(Clone, Copy, Debug, PartialEq, Eq, Error)]
pub enum SitesRefusal {
    #[error("{0:?}")]
    Sites(SiteFault),
    #[error("no memory")]
    NoMemory,
}

impl From<SiteFault> for SitesRefusal {
    ghost from_gives = { λ f e. e ≡ refusals.Sites f };

    fn from(fault: SiteFault) -> SitesRefusal {
        SitesRefusal::Sites(fault)
    }
}

impl From<NoMemory> for SitesRefusal {
    ghost from_gives = { λ _ e. e ≡ refusals.NoMemory };

    fn from(_refusal: NoMemory) -> SitesRefusal {
        SitesRefusal::NoMemory
    }
}

impl<T: Drop> From<AllocFailed<T>> for SitesRefusal {
    ghost from_gives = { λ _ e. e ≡ refusals.NoMemory };

    fn from(_refusal: AllocFailed<T>) -> SitesRefusal {
        SitesRefusal::NoMemory
    }
}
