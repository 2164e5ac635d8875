//! The desk of an area, which tells from the area's readings when an alert is raised, rises and is
//! cancelled.
//!
//! It promises the alerts of any list of readings, by the rules of the setup. It must not know how
//! a reading was made, or what becomes of an alert.
#![tactic(auto)]

mod desk;
mod laws;
mod readings;

pub use desk::Desk;
pub use laws::alerts_of_readings;
