//! What trials are given: the worked setup, sites on a line, packets of equal samples, and hosts
//! with a capture.
//!
//! Trials alone stand on it. It promises what they ask of it and no more.
#![tactic(auto)]

mod hosts;
mod packets;
mod setups;
mod sites;

pub use hosts::{files_of, host_of};
pub use packets::{equal_samples, packet_of};
pub use setups::{GAIN, PASS_THROUGH, RULES, cascade_of, setup_of, setup_with};
pub use sites::sites_of;
