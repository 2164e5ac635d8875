//! Trials of lines, of notes and of desks: worked rows on the level of one call, with ample memory,
//! and all that stands next to a line.
//!
//! It promises nothing, and nothing stands on it: each item is a test's alone, so that no crate
//! below is proved twice for its tests.
#![tactic(auto)]

#[cfg(test)]
mod alerts;
#[cfg(test)]
mod lines;
#[cfg(test)]
mod notes;
