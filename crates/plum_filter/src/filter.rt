//! The filter: all stages of a cascade, one after the other.

ghost use Rattle.std.specs.Prelude.{◌≡◌, ℤ, List, [], All, map};
ghost use Rattle.plum_base.specs.declared.cascade.Stage.{Stage};
ghost use Rattle.plum_filter.specs.Stage.{IsTerm};
ghost use Rattle.plum_filter.specs.Filter.{StandsFor, IsBiquad, JoinsInput, new_biquad};

use crate::biquad::Biquad;
use arrayvec::ArrayVec;
use plum_base::{Cascade, MOST_STAGES};
use std::marker::Model;

/// A cascade of recursive stages with what each still needs of its past.
#[derive(Drop)]
pub struct Filter {
    stages: ArrayVec<Biquad, MOST_STAGES>,
}

impl Model for Filter {
    ghost use Rattle.std.specs.Prelude.{List, All};
    ghost use Rattle.plum_filter.specs.declared.biquad.Biquad.{Biquad};
    ghost use Rattle.plum_filter.specs.Filter.{IsBiquad};

    ghost Value = { List Biquad };

    ghost view = { λ f. f.stages.items };

    ghost invariant = { λ f. All IsBiquad f.stages.items };
}

/// Passes a term through all stages, each of which is given the answer of the one before.
fn pass(stages: &mut [Biquad], x: i32) -> i32
    requires stages { All IsBiquad stages.old }
    requires term { IsTerm x }
    ensures joins { JoinsInput stages.old stages.new x result }
    ensures stages { All IsBiquad stages.new }
    ensures term { IsTerm result }
{
    let mut y = x;
    for stage in stages.iter_mut() {
        y = stage.step(y);
    }
    y
}

/// Each stage before its first term.
fn restart(stages: &mut [Biquad])
    requires { All IsBiquad stages.old }
    ensures value { stages.new ≡ map (λ b. new_biquad b.stage) stages.old }
    ensures stages { All IsBiquad stages.new }
{
    for stage in stages.iter_mut() {
        *stage = Biquad::new(stage.stage);
    }
}

impl Filter {
    /// The filter of a cascade, before its first input.
    pub fn new(cascade: &Cascade) -> Filter
        ensures stands { StandsFor result cascade.now [] }
    {
        let mut stages = ArrayVec::new();
        for stage in cascade.stages() {
            stages.push(Biquad::new(*stage));
        }
        Filter { stages }
    }

    /// Forgets all inputs.
    pub fn reset(&mut self)
        ensures forgets { (cascade : List Stage) (inputs : List ℤ)
            → StandsFor self.old cascade inputs → StandsFor self.new cascade [] }
    {
        restart(self.stages.as_mut_slice());
    }

    /// The cascade's answer to its next input. Both are in filtered units, from -2^30 to 2^30.
    pub fn step(&mut self, x: i32) -> i32
        requires { IsTerm x }
        ensures joins { JoinsInput self.old self.new x result }
        ensures term { IsTerm result }
    {
        pass(self.stages.as_mut_slice(), x)
    }
}
