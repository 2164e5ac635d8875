//! What the ends of the two copies know, and their steps.

use crate::snapshot::Snapshot;
use atomic_table::{Join, Split};
use crossbeam_utils::rule::{Outcome, Protocol};

/// What an end has seen. No value of it is made.
pub struct View {
    pub known: bool,
    pub seen: Snapshot,
}

/// The snapshot rule.
pub struct Shared;

impl Protocol<Snapshot, View> for Shared {
    ghost use Rattle.plum_snap.specs.Rule.{Holds, nobody};

    ghost holds = { Holds };

    ghost first = { nobody };
}

/// A step of an end that looks.
pub struct Sees;

impl Outcome<Snapshot, View> for Sees {
    ghost use Rattle.plum_snap.specs.Rule as rule;

    ghost then = { rule.Sees };
}

/// A new reader is told what its writer knows.
pub struct Notes;

impl Split<View> for Notes {
    ghost left = { λ end. end };

    ghost right = { λ end. end };
}

impl Join<View> for Notes {
    ghost use Rattle.plum_snap.specs.Rule.{nobody};

    ghost both = { λ end told. told };

    ghost spent = { nobody };
}
