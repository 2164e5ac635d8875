//! What the lines tell: their fields.

use plum_base::{Alert, Class, Key, Name, PacketFault, Tenths};

/// A line of the journal: `E n segment station boot number run value`.
#[derive(Clone, Copy, Debug, PartialEq, Eq)]
pub struct JournalLine {
    /// The entry's position in the journal, from 1.
    pub n: u32,
    /// The segment of its packet, from 1.
    pub segment: u32,
    /// The code of its station.
    pub station: u16,
    pub key: Key,
    /// Whether it starts a new run.
    pub fresh: bool,
    /// The station's intensity after it, in tenths.
    pub value: Option<Tenths>,
}

/// A line of the output.
#[derive(Debug, Drop, PartialEq, Eq)]
pub enum OutLine {
    /// `M m bodies kept repeats refused`: mark m, and the counts of segment m.
    Mark {
        m: u32,
        bodies: u32,
        kept: u32,
        repeats: u32,
        refused: u32,
    },
    /// `X record fault`: the number of a refused body's record, and its fault.
    Refused {
        number: u32,
        fault: PacketFault,
    },
    /// `R m area front`: a reading of an area at mark m, and the number of entries of its front.
    Reading {
        m: u32,
        area: Name,
        front: u64,
    },
    /// `P m target value class`: an answer of that reading.
    Answer {
        m: u32,
        target: Name,
        value: Option<Tenths>,
        class: Option<Class>,
    },
    /// `A m area raise class`, `A m area upgrade class` or `A m area cancel`.
    Alert {
        m: u32,
        area: Name,
        alert: Alert,
    },
    /// `T bytes`: the length of the tail.
    Tail {
        bytes: u32,
    },
    /// `Z segments bodies kept repeats refused`: the totals.
    Totals {
        segments: u32,
        bodies: u32,
        kept: u32,
        repeats: u32,
        refused: u32,
    },
}

/// A line of the commands that write no journal.
#[derive(Clone, Copy, Debug, PartialEq, Eq)]
pub enum PlainLine {
    /// `V boot number run value`: a kept packet of the station.
    Value {
        key: Key,
        fresh: bool,
        value: Option<Tenths>,
    },
    /// `Y kept repeats`: how many packets of the station were kept, and how many were repeats.
    Counts {
        kept: u32,
        repeats: u32,
    },
    /// `drill seed stations seconds`: the numbers of a drill.
    Drill {
        seed: u64,
        stations: u16,
        seconds: u16,
    },
}
