//! Trials of the machine, of an engine, of a filter and of a square: worked rows on the level of
//! one call, with ample memory.
//!
//! It promises nothing, and nothing stands on it: each item is a test's alone, so that no crate
//! below is proved twice for its tests.
#![tactic(auto)]

#[cfg(test)]
mod engine;
#[cfg(test)]
mod machine;
#[cfg(test)]
mod squares;
