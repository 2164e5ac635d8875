//! The types that every layer shares: numbers, packets, waves, entries, readings, setups and sites.
//!
//! It promises that each value keeps its ranges, so that no layer tests them again. It knows
//! nothing of files, of captures, or of how anything is worked out.
#![tactic(auto)]

mod answers;
mod bounds;
mod bytes;
mod cascade;
mod codes;
mod counts;
mod entry;
mod lane;
mod laws;
mod levels;
mod memory;
mod name;
mod note;
mod numbers;
mod packet;
mod rules;
mod setup;
mod sites;
mod wave;

pub use answers::{Answers, Reading};
pub use bounds::Bounds;
pub use bytes::Bytes;
pub use cascade::{
    Cascade, CascadeFault, GREATEST_COEFFICIENT, MOST_STAGES, Rounding, STAGE_Q, Stage,
};
pub use counts::Counts;
pub use entry::Entry;
pub use lane::{Offered, Took, lane_of};
pub use laws::areas_come_in_order;
pub use levels::{GREATEST_AMPLITUDE, LevelFault, Levels, MOST_LEVELS};
pub use memory::{NoMemory, Shut};
pub use name::{LONGEST_NAME, Name};
pub use note::{Note, Notes, note_of};
pub use numbers::{
    AreaNo, GREATEST_FACTOR, GRID_END, Key, LaneNo, Point, StationNo, TargetNo, Tenths,
};
pub use packet::{Packet, PacketFault, RefusedBody};
pub use rules::{Alert, Class, Rules};
pub use setup::{CALM, GAIN_G, GAIN_H, Gain, LANES, QUEUE, Setup};
pub use sites::{
    MOST_AREAS, MOST_STATIONS, MOST_TARGETS, Sites, StationSite, TargetSite, has_code, has_name,
    is_among, lawful,
};
pub use wave::{Sample, Wave};
