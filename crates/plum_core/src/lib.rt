//! Stations at work, histories, what makes a transcript legal, and the machine over events: the
//! core of a centre, without a thread.
//!
//! It promises stations at work, and a network of them whose entries are a valid history of exactly
//! the kept packets, the predictions over a history, how a legal transcript goes on, the replies of
//! the machine, and its laws. It knows nothing of bytes, of hosts, nor of lines.
#![tactic(auto)]

mod area;
mod event;
mod laws;
mod machine;
mod network;
mod playing;
mod station;

pub use area::read_area;
pub use event::{Event, Reply};
pub use laws::{
    giving_keeps_backlog, histories, histories_by_lane, legal_transcripts, machine_keeps_facts,
    machine_replies_in_one_way, readings_are_predictions, sending_keeps_validity,
    station_shows_its_value, taking_keeps_backlog, valid_histories_hold_each_once,
};
pub use network::Network;
pub use playing::play;
pub use plum_geo::near_stations_are_those_near;
pub use station::{Station, Taken};
