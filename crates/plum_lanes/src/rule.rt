//! What the passes of the queue know, and the kinds of step.

use crossbeam_queue::protocol::{Join, Lesson, Outcome, Protocol, Split};
use crossbeam_queue::{Pass, RuledArrayQueue};
use plum_base::{Entry, Setup};
use std::collections::LinkedList;
use std::marker::{Brand, PhantomData};

/// What lanes are opened for: the setup, and how many stations there are. No value of it is made.
pub struct Basis {
    pub setup: Setup,
    pub stations: usize,
}

/// What a pass knows. No value of it is made.
pub struct View {
    /// None until it is named.
    pub basis: Option<Basis>,
    pub gathers: bool,
    pub sends: bool,
    /// Of a lane: its number, and what it sent.
    pub lane: u16,
    pub sent: LinkedList<Entry>,
    /// Of the gatherer: what it gathered, how many lanes have their passes, and what each lane had
    /// sent when its pass came back last.
    pub gathered: LinkedList<Entry>,
    pub out: u16,
    pub settled: LinkedList<LinkedList<Entry>>,
}

/// What was gathered and what is queued are one valid history.
pub struct OneHistory;

impl Protocol<Entry, View> for OneHistory {
    ghost use Rattle.plum_lanes.specs.Rule.{Holds, blank};

    ghost holds = { Holds };

    ghost first = { blank };
}

/// The basis, for the proofs alone. A call at `Brand` picks it.
pub trait Named {
    ghost use Rattle.std.specs.Prelude.{Option};
    ghost use Rattle.plum_lanes.specs.declared.rule.Basis.{Basis};

    ghost basis: { Option Basis };
}

impl Named for Brand {
    ghost use Rattle.std.specs.Prelude.{None};

    ghost basis = { None };
}

/// The gatherer is told the basis.
pub struct Names<N> {
    of: PhantomData<N>,
}

impl<N: Named> Split<View> for Names<N> {
    ghost use Rattle.std.specs.Prelude.{[]};
    ghost use Rattle.plum_lanes.specs.Rule.{gatherer, spent};

    ghost left = { λ v. gatherer N.basis [] 0 [] };

    ghost right = { λ v. spent };
}

/// A lane's pass leaves the gatherer, or comes back to it.
pub struct Leaves;

impl Split<View> for Leaves {
    ghost use Rattle.std.specs.Prelude.{◌+◌};
    ghost use Rattle.plum_lanes.specs.Rule.{gatherer, sender, settled_at};

    ghost left = { λ v. gatherer v.basis v.gathered (v.out + 1) v.settled };

    ghost right = { λ v. sender v.basis v.out (settled_at v.settled v.out) };
}

impl Join<View> for Leaves {
    ghost use Rattle.std.specs.Prelude.{◌-◌};
    ghost use Rattle.plum_lanes.specs.Rule as rule;

    ghost both = { λ v w. rule.gatherer v.basis v.gathered (v.out - 1)
        (rule.settle v.settled (v.out - 1) w.sent) };

    ghost spent = { rule.spent };
}

/// A pass that knows nothing stands in a lane for one that came back.
pub struct Spares;

impl Split<View> for Spares {
    ghost use Rattle.plum_lanes.specs.Rule.{spent};

    ghost left = { λ v. v };

    ghost right = { λ v. spent };
}

/// A lane sends an entry, or learns what the full queue says of what it sent.
pub struct Sends;

impl Outcome<Entry, View> for Sends {
    ghost use Rattle.std.specs.Prelude.{◌≡◌, [], ◌∷◌, ◌++◌};
    ghost use Rattle.plum_lanes.specs.Rule.{sender};

    ghost then = { λ v e w. w ≡ sender v.basis v.lane (v.sent ++ e ∷ []) };
}

impl Lesson<Entry, View> for Sends {
    ghost use Rattle.plum_lanes.specs.Rule.{IsSentThen};

    ghost fact = { IsSentThen };
}

/// The gatherer takes an entry, or learns what the queue says of what it gathered.
pub struct Gets;

impl Outcome<Entry, View> for Gets {
    ghost use Rattle.plum_lanes.specs.Rule.{Gathers};

    ghost then = { Gathers };
}

impl Lesson<Entry, View> for Gets {
    ghost use Rattle.plum_lanes.specs.Rule.{IsGatheredThen};

    ghost fact = { IsGatheredThen };
}

/// The ring that holds the queue, under the rule, and a pass of it.
pub type Ring = RuledArrayQueue<Entry, View, OneHistory>;

pub type Ticket = Pass<Entry, View>;
