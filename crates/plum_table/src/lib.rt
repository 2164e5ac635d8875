//! The setup file: what a TOML document says of the machine, the gain, the filter, the levels and
//! the rules.
//!
//! It promises the setup that the document states, with each number in its range, or the first
//! fault of the walk through its keys. It must not know where the bytes come from, or what becomes
//! of a setup.
#![tactic(auto)]

mod fault;
mod kinds;
mod laws;
mod levels;
mod rules;
mod setup;
mod stages;

pub use fault::{Field, SetupFault, SetupKey, TableFault};
pub use laws::setups_come_from_documents;
pub use setup::read_setup;
