//! Trials of single calls that no contract reaches: real files, and calls that succeed with ample
//! memory.
//!
//! It promises nothing, and nothing stands on it: each item is a test's alone, so that no crate
//! below is proved twice for its tests.
#![tactic(auto)]

#[cfg(test)]
mod files;
#[cfg(test)]
mod loads;
#[cfg(test)]
mod packets;
#[cfg(test)]
mod ranges;
#[cfg(test)]
mod records;
