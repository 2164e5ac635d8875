//! One biquad stage, with what its past adds to its answers.

ghost use Rattle.std.specs.Prelude.{◌≡◌, ◌^◌, ◌*◌, ◌+◌, ◌≤◌, pos, ◌+ℤ◌, ◌-ℤ◌, ◌*ℤ◌, unsigned_abs};
ghost use Rattle.std.specs.Int.{int_div_euclid};
ghost use Rattle.plum_base.specs.Cascade.{STAGE_Q, IsStage, IsCoefficient};
ghost use Rattle.plum_filter.specs.Stage.{IsTerm, clamped};
ghost use Rattle.plum_filter.specs.Filter.{half_of, IsBiquad, answer_of, moved_on, new_biquad};

use plum_base::{Rounding, Stage};

/// The greatest term, in filtered units.
const GREATEST_TERM: i64 = 1 << 30;

/// A stage, and what its past adds to the sums of its next two answers. So an answer waits for its
/// newest term alone: a product, a sum, a shift and a clamp.
#[derive(Clone, Copy, Default)]
pub struct Biquad {
    pub stage: Stage,
    /// What is added to each sum before it is divided.
    pub half: i64,
    /// The half, and what the past adds to the next sum.
    pub next: i64,
    /// The half, and what the past so far adds to the sum after the next.
    pub later: i64,
}

/// A coefficient times a term.
fn product(coefficient: i32, term: i32) -> i64
    requires coefficient { IsCoefficient coefficient }
    requires term { IsTerm term }
    ensures value { result ≡ coefficient *ℤ term }
    ensures bound { unsigned_abs result ≤ 2 ^ 60 }
{
    coefficient as i64 * term as i64
}

/// What a term of the input and the answer to it add to a later sum: the answer's part is taken
/// away.
fn added(b: i32, x: i32, a: i32, y: i32) -> i64
    requires b { IsCoefficient b }
    requires x { IsTerm x }
    requires a { IsCoefficient a }
    requires y { IsTerm y }
    ensures value { result ≡ b *ℤ x -ℤ a *ℤ y }
    ensures bound { unsigned_abs result ≤ 2 * 2 ^ 60 }
{
    product(b, x) - product(a, y)
}

/// What is added before a division by 2^q: half of it, to round to the nearest.
fn half_of(round: Rounding, q: u8) -> i64
    requires low { STAGE_Q.low ≤ q }
    requires high { q ≤ STAGE_Q.high }
    ensures { result ≡ pos (half_of round q) }
{
    match round {
        Rounding::Floor => 0,
        Rounding::Nearest => 1 << (q - 1),
    }
}

/// A sum divided by 2^q, rounded down.
fn divided(sum: i64, q: u8) -> i64
    requires { q ≤ STAGE_Q.high }
    ensures { result ≡ int_div_euclid sum (pos (2 ^ q)) }
{
    sum >> q
}

/// The number cut to the range of terms.
pub fn clamp_term(number: i64) -> i32
    ensures value { result ≡ clamped number }
    ensures term { IsTerm result }
{
    number.clamp(-GREATEST_TERM, GREATEST_TERM) as i32
}

impl Biquad {
    /// The stage before its first term.
    pub fn new(stage: Stage) -> Biquad
        requires { IsStage stage }
        ensures value { result ≡ new_biquad stage }
        ensures biquad { IsBiquad result }
    {
        let half = half_of(stage.round, stage.q);
        Biquad {
            stage,
            half,
            next: half,
            later: half,
        }
    }

    /// The sum of the stage equation, with the half.
    fn sum(&self, x: i32) -> i64
        requires biquad { IsBiquad self.now }
        requires term { IsTerm x }
        ensures { result ≡ self.now.next +ℤ self.now.stage.b0 *ℤ x }
    {
        self.next + product(self.stage.b0, x)
    }

    /// The stage's answer to its next term.
    fn answer(&self, x: i32) -> i32
        requires biquad { IsBiquad self.now }
        requires term { IsTerm x }
        ensures value { result ≡ answer_of self.now x }
        ensures term { IsTerm result }
    {
        clamp_term(divided(self.sum(x), self.stage.q))
    }

    /// Answers the next term, and holds what the two add to later sums.
    pub fn step(&mut self, x: i32) -> i32
        requires biquad { IsBiquad self.old }
        requires term { IsTerm x }
        ensures value { result ≡ answer_of self.old x }
        ensures state { self.new ≡ moved_on self.old x }
        ensures term { IsTerm result }
        ensures biquad { IsBiquad self.new }
    {
        let y = self.answer(x);
        self.next = self.later + added(self.stage.b1, x, self.stage.a1, y);
        self.later = self.half + added(self.stage.b2, x, self.stage.a2, y);
        y
    }
}
