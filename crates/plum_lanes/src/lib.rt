//! Lanes at work: the stations of a centre, shared among lanes, each of which hands its entries to
//! one gatherer through a queue that all share.
//!
//! It promises that what is gathered is a valid history at each moment, whatever the threads do,
//! that a lane sends exactly its entries, in order and each once, and, after a round is closed, how
//! what each lane sent stands in what is gathered and queued. It knows nothing of bytes, of boards,
//! nor of sessions, and starts no thread.
#![tactic(auto)]

mod closing;
mod gatherer;
mod lanes;
mod laws;
mod opening;
mod rule;
mod steps;

pub use closing::close_round;
pub use gatherer::Gather;
pub use lanes::Lane;
pub use laws::gathered_are_kept;
pub use opening::open;
