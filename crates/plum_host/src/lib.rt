//! Inputs and outputs. Owns what a host is: what it tells of them, and how it counts faults.
//! Promises whole inputs (`load`), whole pieces (`put_all`), a host over memory that tells all, and
//! one over files, the trusted edge, that tells its counts alone.
//! Must not know what the bytes mean.
#![tactic(auto)]

mod host;
mod loading;
mod memory;
mod paths;
mod put;
mod schedule;
mod standard;

pub use host::{Failed, Host, In, To, WriteRefusal};
pub use loading::{LoadFault, load};
pub use memory::{MemFiles, MemHost};
pub use paths::{PathText, Paths};
pub use put::put_all;
pub use standard::StdHost;
