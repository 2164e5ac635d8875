//! The station file and the target file: their bytes, read with `csv`, to the lists of a centre.
//!
//! It owns the form of both files: the headers, the columns, the form of a field and its range. It
//! promises exactly the list that the records state, or the first fault in the order of rows and,
//! in a row, of the faults. It knows nothing of where the bytes come from, nor of what a centre
//! does with its sites.
#![tactic(auto)]

mod fault;
mod fields;
mod laws;
mod ranges;
mod records;
mod stations;
mod targets;
mod walk;

pub use fault::{SiteFault, SitesRefusal};
pub use laws::files_have_one_answer;
pub use stations::read_stations;
pub use targets::read_targets;
