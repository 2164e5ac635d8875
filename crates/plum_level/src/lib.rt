//! The level of a run: the greatest threshold that 0.3 seconds of its last minute reach.
//!
//! It promises that a window's answer is the level of the squared amplitudes that it was given
//! since the last reset, whatever rose and fell, in steps that ask for no memory. It knows nothing
//! of where amplitudes come from, of stations, nor of the tenths that a level stands for.
#![tactic(auto)]

mod laws;
mod tally;
mod thresholds;
mod window;

pub use laws::one_level;
pub use window::Window;
