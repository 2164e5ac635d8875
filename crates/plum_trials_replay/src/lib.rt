//! Trials of a replay: worked rows on hosts that move a few bytes a call, rounds whose threads must
//! meet, in which pieces it writes, in what order, and where a failing call ends it.
//!
//! It promises nothing, and nothing stands on it: each item is a test's alone, so that no crate
//! below is proved twice for its tests.
#![tactic(auto)]

#[cfg(test)]
mod captures;
#[cfg(test)]
mod gates;
#[cfg(test)]
mod lines;
#[cfg(test)]
mod meeting;
#[cfg(test)]
mod noting;
#[cfg(test)]
mod pieces;
#[cfg(test)]
mod replaying;
#[cfg(test)]
mod rows;
