//! Trials of the files of a setup and of sites, with ample memory: the numbers and names of whole
//! files, and each fault at each key and row.
//!
//! It promises nothing, and nothing stands on it: each item is a test's alone, so that no crate
//! below is proved twice for its tests.
#![tactic(auto)]

#[cfg(test)]
mod setups;
#[cfg(test)]
mod site_faults;
#[cfg(test)]
mod sites;
