//! The cascade of recursive stages, in fixed point and sample by sample.
//!
//! It promises that a filter's answers since it was made or reset are the cascade's output over the
//! inputs since then, and that a stage has one output. It knows nothing of components, of gains, of
//! amplitudes, nor of where a run begins.
#![tactic(auto)]

mod biquad;
mod filter;
mod laws;

pub use biquad::clamp_term;
pub use filter::Filter;
pub use laws::{as_long, one_output};
