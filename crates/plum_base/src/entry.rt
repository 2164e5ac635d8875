//! An entry of the journal.

use crate::numbers::{Key, LaneNo, StationNo, Tenths};
use crate::wave::Wave;

/// A kept packet, with what its station shows after it.
#[derive(Debug, Drop)]
pub struct Entry {
    pub station: StationNo,
    pub lane: LaneNo,
    pub key: Key,
    /// Whether it starts a new run.
    pub fresh: bool,
    pub wave: Wave,
    /// The station's intensity after it, or none with fewer than 30 samples since the last gap.
    pub value: Option<Tenths>,
}
