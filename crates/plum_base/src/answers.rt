//! What a session answers for the targets of its area.

ghost use Rattle.std.specs.Prelude.{◌≡◌, ◌<◌, [], ◌∷◌, ◌++◌, length, slice_set, OnOk, OnErr, IfOk};

use crate::memory::NoMemory;
use crate::numbers::Tenths;
use std::alloc::Global;
use std::marker::Model;

/// A predicted intensity or none for each target, in file order. Contracts see the list of them.
#[derive(Debug, Drop)]
pub struct Answers {
    items: Vec<Option<Tenths>>,
}

impl Model for Answers {
    ghost use Rattle.std.specs.Prelude.{List, Option};
    ghost use Rattle.plum_base.specs.declared.numbers.Tenths.{Tenths};

    ghost Value = { List (Option Tenths) };

    ghost view = { λ a. a.items.items };
}

impl Answers {
    /// No answers.
    pub fn new(alloc: Global) -> Result<Answers, NoMemory>
        ensures { IfOk result (λ a. a ≡ []) }
    {
        Ok(Answers {
            items: Vec::new(alloc),
        })
    }

    /// Appends an answer.
    pub fn push(&mut self, answer: Option<Tenths>) -> Result<(), NoMemory>
        ensures ok { OnOk result (self.new ≡ self.old ++ answer ∷ []) }
        ensures err { OnErr result (self.new ≡ self.old) }
    {
        self.items.push(answer)?;
        Ok(())
    }

    /// An equal list.
    pub fn copy(&self) -> Result<Answers, NoMemory>
        ensures { IfOk result (λ a. a ≡ self.now) }
    {
        let items = Vec::from_slice(*self.items.allocator(), self.items.as_slice())?;
        Ok(Answers { items })
    }

    /// Changes the answer at `i`, from 0, alone.
    pub fn set(&mut self, i: u16, answer: Option<Tenths>)
        requires { i < length self.old }
        ensures { self.new ≡ slice_set self.old i answer }
    {
        self.items[i as usize] = answer;
    }

    /// The answers, in file order of their targets.
    pub fn as_slice(&self) -> &[Option<Tenths>]
        ensures { result.now ≡ self.now }
    {
        self.items.as_slice()
    }
}

/// One reading of the board: how many entries its front has, and an answer for each target.
#[derive(Debug, Drop)]
pub struct Reading {
    pub front: u64,
    pub answers: Answers,
}
