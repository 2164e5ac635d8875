//! The work of a replay: from a capture to its two texts.
//!
//! It promises that the texts are those of one transcript, legal for the capture, and what stands
//! in them where a fault ends the work. It must not know how words, files and statuses are spelled.
#![tactic(auto)]

mod areas;
mod between;
mod desks;
mod fault;
mod gate;
mod journal;
mod laws;
mod progress;
mod replaying;
mod round;
mod section;
mod totals;
mod working;

pub use fault::ReplayFault;
pub use gate::{Gate, OpenGate};
pub use laws::texts_tell_one_transcript;
pub use replaying::replay;
pub use totals::Totals;
