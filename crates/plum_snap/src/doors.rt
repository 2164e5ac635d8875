//! The two edges at `left_right`, which promises no success and names no cause there. What it
//! refuses is counted, by the few lines that ask, and by nothing else.

mod asking;
mod entering;

pub use asking::Doors;
pub(crate) use entering::{Entrance, Inside};
