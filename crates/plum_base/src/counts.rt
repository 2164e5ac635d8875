//! How many bodies came, and what became of them.

/// How many bodies a segment or a capture has, and how many of them were kept, repeats and refused.
#[derive(Clone, Copy, Debug, PartialEq, Eq)]
pub struct Counts {
    pub bodies: u32,
    pub kept: u32,
    pub repeats: u32,
    pub refused: u32,
}
