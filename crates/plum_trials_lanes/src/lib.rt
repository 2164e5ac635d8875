//! Trials of lanes: worked rows on the level of one call, and rounds on real threads.
//!
//! It promises nothing, and nothing stands on it: each item is a test's alone, so that no crate
//! below is proved twice for its tests.
#![tactic(auto)]

#[cfg(test)]
mod handing;
#[cfg(test)]
mod rounds;
#[cfg(test)]
mod rows;
