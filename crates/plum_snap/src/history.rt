//! The one list of a publisher, which only grows.
//!
//! It stands in proofs alone. What is shared of it is one word, its length; a token of no bytes
//! says of a beginning that it was reached.

ghost use Rattle.std.specs.Prelude.{◌≡◌, ◌<◌, [], ◌∷◌, ◌++◌, length, IfSome};
ghost use Rattle.plum_snap.specs.Fronts.{MOST_ENTRIES};
ghost use Rattle.plum_snap.specs.History.{head_of};

use crate::front::Front;
use logbook::{Gain, Offer, Plain, Play, Rule, Seen, Start, Word};
use plum_base::Entry;

/// The rule of the list.
pub struct Law;

impl Rule<Entry, u64> for Law {
    ghost use Rattle.std.specs.Prelude.{[]};
    ghost use base.Fml.{ftrue};
    ghost use Rattle.plum_snap.specs.History.{IsKept};

    ghost holds = { λ cells entries. IsKept cells entries };

    ghost first = { [] };

    ghost hinted = { λ n entries. Unit {0} };

    ghost shows = { λ entries. [] };

    ghost keeps = { λ names entries. ftrue };

    ghost moves = { λ ask before after answer. Unit {0} };
}

/// A step trades nothing.
struct Nothing;

impl Gain<Entry, u64> for Nothing {
    ghost use base.Fml.{ftrue};

    ghost after = { λ names about answer. ftrue };
}

/// A step that adds an entry.
struct Add;

impl Play<Entry, u64> for Add {
    ghost use Rattle.plum_snap.specs.History.{Adds};

    ghost then = { Adds };
}

impl Plain<Entry, Entry, u64> for Add {
    ghost use Rattle.std.specs.Prelude.{None};

    ghost ask = { λ entry. entry };

    ghost state = { λ entry. None };
}

/// That the list has reached some entries.
pub type Reached = Seen<Entry, u64, Law>;

/// The length of the list.
pub type Head = Word<Entry, u64, Law>;

/// A new list, which is empty, and the front that has all of it.
pub fn begin() -> (Head, Front)
    ensures head { result.0 ≡ head_of result.1.list }
    ensures empty { result.1.entries ≡ [] }
{
    let (reached, mut first, _second) = Seen::open(Start::alone(), 0, 0);
    let front = Front { count: 0, reached };
    (Word::tracked(0, &mut first), front)
}

/// The list with an entry more than this front. None where it had more already, which no run takes:
/// one publisher alone extends it.
pub fn extend(head: &Head, front: &Front, entry: &Entry) -> Option<Front>
    requires head { head.now ≡ head_of front.now.list }
    requires room { length front.now.entries < MOST_ENTRIES }
    ensures { IfSome result (λ longer. longer ≡ record front.now {
      entries = front.now.entries ++ entry.now ∷ [];
    }) }
{
    let mut reached = front.reached.again();
    let mut offer: Offer<Entry, u64, Law, Nothing> = reached.plain::<Nothing, Entry, Add>(entry);
    let mut pen = reached.no_pen();
    let (old, new) = (front.count, front.count + 1);
    let found = head.compare_exchange::<Add, Nothing>(old, new, &mut reached, &mut offer, &mut pen);
    if found == old {
        Some(Front {
            count: new,
            reached,
        })
    } else {
        None
    }
}
