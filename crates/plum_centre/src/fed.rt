//! What a turn of the feeder did.

/// What a turn of the feeder did.
#[derive(Clone, Copy, Debug, PartialEq, Eq)]
pub enum Fed {
    /// It gathered an entry, which is pending now.
    One,
    /// It published all that was pending.
    Published,
    /// It found the queue empty, with nothing pending.
    Empty,
}
