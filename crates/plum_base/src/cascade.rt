//! The cascade of recursive stages that filters each component.

ghost use Rattle.std.specs.Prelude.{◌≡◌, ◌↔◌, ◌<◌, ℕ, All, slice_get, IsTrue, IsSomeAnd, IfOk};
ghost use Rattle.std.specs.Prelude.{IfErr, IfSome, IfNone};
ghost use Rattle.plum_base.specs.Cascade.{IsCoefficient, IsStage, IsCascade, IsFirstCascadeFault};

use crate::bounds::Bounds;
use arrayvec::ArrayVec;
use std::marker::Model;

/// The greatest coefficient. The least is its negative.
pub const GREATEST_COEFFICIENT: i32 = 1 << 30;

/// The bounds of a stage's `q`.
pub const STAGE_Q: Bounds = Bounds { low: 1, high: 30 };

/// The most stages of a cascade.
pub const MOST_STAGES: usize = 8;

/// How a stage rounds: down, or to the nearest with halves up.
#[derive(Clone, Copy, Debug, Default, PartialEq, Eq)]
pub enum Rounding {
    #[default]
    Floor,
    Nearest,
}

/// A recursive stage of second order, in fixed point: the coefficients are multiples of 2^-q.
#[derive(Clone, Copy, Debug, Default, PartialEq, Eq)]
pub struct Stage {
    pub b0: i32,
    pub b1: i32,
    pub b2: i32,
    pub a1: i32,
    pub a2: i32,
    pub q: u8,
    pub round: Rounding,
}

/// What is wrong with a list of stages: there is none, or the stage at that position, from 0, is
/// the first with a number out of its range.
#[derive(Clone, Copy, Debug, PartialEq, Eq)]
pub enum CascadeFault {
    Empty,
    Stage(u8),
}

/// One to eight stages with each number in its range. Contracts see the list of them.
#[derive(Debug, Drop)]
pub struct Cascade {
    stages: ArrayVec<Stage, MOST_STAGES>,
}

impl Model for Cascade {
    ghost use Rattle.std.specs.Prelude.{List};
    ghost use Rattle.plum_base.specs.declared.cascade.Stage.{Stage};
    ghost use Rattle.plum_base.specs.Cascade.{IsCascade};

    ghost Value = { List Stage };

    ghost view = { λ c. c.stages.items };

    ghost invariant = { λ c. IsCascade c.stages.items };
}

fn is_coefficient(b: i32) -> bool
    ensures { IsTrue result ↔ IsCoefficient b }
{
    -GREATEST_COEFFICIENT <= b && b <= GREATEST_COEFFICIENT
}

fn are_coefficients(bs: &[i32]) -> bool
    ensures { IsTrue result ↔ All IsCoefficient bs.now }
{
    bs.iter().all(|b| is_coefficient(*b))
}

/// Whether each number of the stage is in its range.
fn is_in_range(s: &Stage) -> bool
    ensures { IsTrue result ↔ IsStage s.now }
{
    are_coefficients(&[s.b0, s.b1, s.b2, s.a1, s.a2]) && STAGE_Q.hold(u32::from(s.q))
}

/// The first stage with a number out of its range.
fn first_out_of_range(stages: &[Stage]) -> Option<usize>
    ensures found { IfSome result (λ k. IsSomeAnd (slice_get stages.now k) (λ s. ¬ IsStage s)
        × ((j : ℕ) → j < k → IsSomeAnd (slice_get stages.now j) IsStage)) }
    ensures none { IfNone result (All IsStage stages.now) }
{
    for (k, stage) in stages.iter().enumerate() {
        if !is_in_range(stage) {
            return Some(k);
        }
    }
    None
}

impl Cascade {
    /// The cascade of these stages, in the order in which a sample passes them.
    pub fn new(stages: ArrayVec<Stage, MOST_STAGES>) -> Result<Cascade, CascadeFault>
        ensures ok { IfOk result (λ c. (c ≡ stages.items) × IsCascade stages.items) }
        ensures fault { IfErr result (IsFirstCascadeFault stages.items) }
    {
        if stages.is_empty() {
            return Err(CascadeFault::Empty);
        }
        match first_out_of_range(stages.as_slice()) {
            Some(k) => Err(CascadeFault::Stage(k as u8)),
            None => Ok(Cascade { stages }),
        }
    }

    /// The stages, in that order.
    pub fn stages(&self) -> &[Stage]
        ensures value { result.now ≡ self.now }
        ensures cascade { IsCascade self.now }
    {
        self.stages.as_slice()
    }
}
