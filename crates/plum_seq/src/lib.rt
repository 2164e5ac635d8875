//! The key rule: which packets are kept, and which of them are fresh.
//!
//! It promises the verdict on each key after those before it, and the laws of kept packets, of one
//! station and of many. It knows nothing of samples, of where packets come from, nor of what is
//! made of them.
#![tactic(auto)]

mod laws;
mod seq;

pub use laws::{greatest_keys, kept_packets};
pub use seq::{Seq, Verdict};
