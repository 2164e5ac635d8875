//! Judging the keys of a station's packets, one after another.

ghost use Rattle.std.specs.Prelude.{◌≡◌, ◌≢◌, ◌↔◌, false, List, [], ◌∷◌, ◌++◌, Some};
ghost use Rattle.plum_base.specs.declared.numbers.Key.{Key};
ghost use Rattle.plum_seq.specs.Keys.{is_below, continues, greatest_key};
ghost use Rattle.plum_seq.specs.Verdicts.{IsVerdict};

use plum_base::Key;
use std::marker::Model;

/// What a key is after those before it.
#[derive(Clone, Copy, Debug, PartialEq, Eq)]
pub enum Verdict {
    /// Kept, and the next of its run.
    Continues,
    /// Kept, and the first of a new run.
    Fresh,
    /// Not greater than the kept key `last`, the greatest before it.
    Repeat { last: Key },
}

/// The keys of one station's packets so far. Contracts see the greatest of them.
#[derive(Drop)]
pub struct Seq {
    /// The last kept one, which is the greatest.
    last: Option<Key>,
}

impl Model for Seq {
    ghost use Rattle.std.specs.Prelude.{Option};
    ghost use Rattle.plum_base.specs.declared.numbers.Key.{Key};

    ghost Value = { Option Key };

    ghost view = { λ s. s.last };
}

impl Seq {
    /// No packet came yet.
    pub fn new() -> Seq
        ensures { result ≡ greatest_key [] }
    {
        Seq { last: None }
    }

    /// Judges the next key, and keeps it unless it is a repeat.
    pub fn judge(&mut self, key: Key) -> Verdict
        // Over all keys so far.
        ensures knows { (keys : List Key) → self.old ≡ greatest_key keys
            → self.new ≡ greatest_key (keys ++ key ∷ []) }
        ensures verdict { (keys : List Key) → self.old ≡ greatest_key keys
            → IsVerdict keys key result }

        // Over the greatest key alone: a repeat is told exactly where the key is not greater, and
        // changes nothing. Any other key becomes the greatest.
        ensures repeat { (last : Key) → (result ≡ Verdict.Repeat last)
            ↔ ((self.old ≡ Some last) × (is_below last key ≡ false)) }
        ensures unchanged { (last : Key) → result ≡ Verdict.Repeat last → self.new ≡ self.old }
        ensures keeps { ((last : Key) → result ≢ Verdict.Repeat last) → self.new ≡ Some key }
    {
        let Some(last) = self.last else {
            self.last = Some(key);
            return Verdict::Fresh;
        };
        if !is_above(last, key) {
            return Verdict::Repeat { last };
        }
        self.last = Some(key);
        if is_next(last, key) {
            Verdict::Continues
        } else {
            Verdict::Fresh
        }
    }
}

/// Whether `key` is greater than `last`.
fn is_above(last: Key, key: Key) -> bool
    ensures { result ≡ is_below last key }
{
    last < key
}

/// Whether `key` has the boot of `last` and the number after it.
fn is_next(last: Key, key: Key) -> bool
    ensures { result ≡ continues last key }
{
    key.boot == last.boot && last.number.checked_add(1) == Some(key.number)
}
