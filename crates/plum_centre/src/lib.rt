//! A centre: lanes that take packets, a feeder that publishes what they send, and sessions that
//! read it.
//!
//! It promises that what is published is a front of what was gathered, which is a valid history,
//! and that after a round is closed all that the lanes sent is gathered and published. It joins the
//! queue and the published board, by the one owner that has an end of each. It must not know of
//! bytes, of captures, nor of threads.
#![tactic(auto)]

mod centre;
mod closing;
mod fed;
mod feeder;

pub use centre::Centre;
pub use fed::Fed;
pub use feeder::Feeder;
