//! What a replay counted in all.

/// How many segments and bodies there were, how many of these were kept, repeats and refused, and
/// how many bytes stand behind the last whole record.
#[derive(Clone, Copy, Debug, PartialEq, Eq)]
pub struct Totals {
    pub segments: u32,
    pub bodies: u32,
    pub kept: u32,
    pub repeats: u32,
    pub refused: u32,
    pub tail: u32,
}
