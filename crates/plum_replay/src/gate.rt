//! A gate on the way of a round: a trial's own threads learn there how far it has come.

/// It is called before each step of a round, on the thread that makes the step, and may hold it up.
/// It changes nothing of what the round does.
pub trait Gate {
    /// A lane is about to take a packet.
    fn lane(&self, round: u32, lane: u16);

    /// The feeder is about to turn.
    fn turn(&self, round: u32);

    /// A session is about to read.
    fn reading(&self, round: u32, session: u16);
}

/// The gate that does nothing.
#[derive(Clone, Copy, Debug, Drop)]
pub struct OpenGate;

impl Gate for OpenGate {
    fn lane(&self, _round: u32, _lane: u16) {}

    fn turn(&self, _round: u32) {}

    fn reading(&self, _round: u32, _session: u16) {}
}
