//! The board of a history: what each station shows, and the predictions at the targets.
//!
//! It promises the prediction over whatever entries were applied, and their number; two copies of
//! it that take in the same entries are alike. It must not know where entries come from, nor who
//! reads it.
#![tactic(auto)]

mod absorbing;
mod board;
mod laws;

pub use board::Board;
pub use laws::entries_add_up;
