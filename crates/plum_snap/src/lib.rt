//! The published board, and the sessions that read it and never wait.
//!
//! A publisher appends entries to its one list, and publishes fronts of it. A session reads for the
//! targets of one area. It promises that a reading is that of one front, which goes on from all
//! that the session had seen or learned, that all fronts are of one list, and that a place that is
//! refused and a read that is shut out are counted. It must not know where entries come from, nor
//! whether the list is a valid history.
#![tactic(auto)]

mod answering;
mod doors;
mod ends;
mod front;
mod history;
mod limit;
mod opening;
mod publisher;
mod receipt;
mod rule;
mod session;
mod snapshot;

pub use doors::Doors;
pub use opening::{OpenFault, open};
pub use publisher::Publisher;
pub use receipt::Receipt;
pub use session::Session;
