//! Trials of the published board: a publisher and its sessions, in one thread and in nine.
//!
//! It promises nothing, and nothing stands on it: each item is a test's alone, so that no crate
//! below is proved twice for its tests.
#![tactic(auto)]

#[cfg(test)]
mod entries;
#[cfg(test)]
mod sessions;
#[cfg(test)]
mod watching;
