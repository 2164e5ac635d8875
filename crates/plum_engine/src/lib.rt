//! A station's engine: the gain, three filtered components, their amplitude, a window, and the
//! value that its level stands for.
//!
//! It promises that an engine's value is the function of the samples since the last gap, whatever
//! came before, and that a station has one value. It knows nothing of how a filter keeps its past
//! (plum_filter), of how a window keeps its level (plum_level), of how keys are judged, of lanes,
//! nor of other stations.
#![tactic(auto)]

mod components;
mod engine;
mod gain;
mod laws;

pub use engine::Engine;
pub use laws::{amplitudes, one_value, passes_through, since_last_gap};
