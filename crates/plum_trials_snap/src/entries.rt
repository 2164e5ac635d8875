//! Entries that show a value.

use plum_base::{Entry, Key, LaneNo, NoMemory, StationNo, Tenths, Wave};
use std::alloc::Global;

/// An entry of a station that shows this value.
pub fn entry_of(alloc: Global, station: u16, value: Option<Tenths>) -> Result<Entry, NoMemory> {
    Ok(Entry {
        station: StationNo(station),
        lane: LaneNo(0),
        key: Key { boot: 0, number: 0 },
        fresh: true,
        wave: Wave::new(alloc)?,
        value,
    })
}
