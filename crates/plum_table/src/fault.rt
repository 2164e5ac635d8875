//! What is wrong with a setup file, and the key at which it is.

ghost use Rattle.std.specs.Prelude.{◌≡◌, Some};
ghost use Rattle.plum_table.specs.Keys.{name_of, setup_key, stage_key, key_text};

use std::fmt;
use thiserror::Error;

/// The keys of the setup file, in the order in which they are read.
#[derive(Clone, Copy, Debug, PartialEq, Eq)]
pub enum Field {
    Lanes,
    Queue,
    Gain,
    GainG,
    GainH,
    Stages,
    B0,
    B1,
    B2,
    A1,
    A2,
    Q,
    Round,
    Levels,
    Base,
    Thresholds,
    Rules,
    Raise,
    Cancel,
    Calm,
}

impl Field {
    /// The key within its table.
    pub fn name(self) -> &'static str
        ensures { result.now ≡ name_of self }
    {
        match self {
            Field::Lanes => "lanes",
            Field::Queue => "queue",
            Field::Gain => "gain",
            Field::GainG => "g",
            Field::GainH => "h",
            Field::Stages => "stage",
            Field::B0 => "b0",
            Field::B1 => "b1",
            Field::B2 => "b2",
            Field::A1 => "a1",
            Field::A2 => "a2",
            Field::Q => "q",
            Field::Round => "round",
            Field::Levels => "levels",
            Field::Base => "base",
            Field::Thresholds => "thresholds",
            Field::Rules => "rules",
            Field::Raise => "raise",
            Field::Cancel => "cancel",
            Field::Calm => "calm",
        }
    }
}

/// A key of the file. The stage, from 0, is 0 for a key outside of the stages.
#[derive(Clone, Copy, Debug, PartialEq, Eq)]
pub struct SetupKey {
    pub field: Field,
    pub stage: u8,
}

impl SetupKey {
    /// A key outside of the stages.
    pub fn of(field: Field) -> SetupKey
        ensures { result ≡ setup_key field }
    {
        SetupKey { field, stage: 0 }
    }

    /// A key of the stage with this number, from 0.
    pub fn of_stage(field: Field, stage: u8) -> SetupKey
        ensures { result ≡ stage_key field stage }
    {
        SetupKey { field, stage }
    }
}

/// The key as the file has it, for example `levels.base` or `stage[2].b1`.
impl fmt::Display for SetupKey {
    ghost output = { λ key. Some (key_text key) };

    fn fmt<W: fmt::Write>(&self, f: &mut fmt::Formatter<W>) -> fmt::Result {
        let name = self.field.name();
        match self.field {
            Field::GainG | Field::GainH => write!(f, "gain.{name}"),
            Field::B0 | Field::B1 | Field::B2 | Field::A1 | Field::A2 | Field::Q | Field::Round => {
                write!(f, "stage[{}].{name}", self.stage)
            }
            Field::Base | Field::Thresholds => write!(f, "levels.{name}"),
            Field::Raise | Field::Cancel | Field::Calm => write!(f, "rules.{name}"),
            _ => write!(f, "{name}"),
        }
    }
}

/// The first fault of the walk through the keys. At each key the tests are whether it is there, its
/// kind and its range, and at the thresholds then their order.
#[derive(Clone, Copy, Debug, PartialEq, Eq, Error)]
pub enum SetupFault {
    #[error("no TOML document")]
    NotToml,
    #[error("{0} is missing")]
    Missing(SetupKey),
    #[error("{0} has another kind")]
    Kind(SetupKey),
    #[error("{0} is out of range")]
    Range(SetupKey),
    /// The threshold at this position, from 0, is not greater than the one before it.
    #[error("threshold {0} is not greater than the one before it")]
    Order(u16),
}

/// Why no setup was read.
#[derive(Clone, Copy, Debug, PartialEq, Eq, Error)]
pub enum TableFault {
    #[error("setup: {0}")]
    Setup(SetupFault),
    #[error("no memory")]
    NoMemory,
}
