//! Up to where the list of a publisher is published. The publisher alone raises it.
//!
//! What is shared of it is one word: fronts that are shorter than the limit are published. That
//! nobody else raises it stands in proofs alone: who has the pen of the last mark has seen all.

ghost use Rattle.std.specs.Prelude.{◌≡◌, ◌≤◌, IfOk};
ghost use Rattle.std.specs.Arc.{arc_value};
ghost use Rattle.logbook.specs.Pages.{may_write};
ghost use Rattle.plum_snap.specs.Limits.{limit_of, limit_word};

use logbook::{Gain, Offer, Pen, Plain, Play, Rule, Seen, Start, Word};
use plum_base::NoMemory;
use std::alloc::Global;
use std::marker::Model;
use std::sync::Arc;

/// A limit, and the key of the pen that writes the next. No value of it is made.
pub struct Mark {
    pub limit: u64,
    pub key: u64,
}

/// The rule of the limit.
pub struct Rising;

impl Rule<Mark, u64> for Rising {
    ghost use Rattle.std.specs.Prelude.{[]};
    ghost use base.Fml.{ftrue};
    ghost use Rattle.plum_snap.specs.Limits.{IsLimited};

    ghost holds = { λ cells marks. IsLimited cells marks };

    ghost first = { [] };

    ghost hinted = { λ n marks. Unit {0} };

    ghost shows = { λ marks. [] };

    ghost keeps = { λ names marks. ftrue };

    ghost moves = { λ ask before after answer. Unit {0} };
}

/// A step trades nothing.
struct Nothing;

impl Gain<Mark, u64> for Nothing {
    ghost use base.Fml.{ftrue};

    ghost after = { λ names about answer. ftrue };
}

/// A step names the pen that writes the next.
struct Names;

impl Plain<Pen, Mark, u64> for Names {
    ghost use Rattle.std.specs.Prelude.{None};

    ghost ask = { λ pen. record { limit = 0; key = pen.nib.key } };

    ghost state = { λ pen. None };
}

/// A step that makes a pen.
struct MakePen;

impl Play<Mark, u64> for MakePen {
    ghost use Rattle.plum_snap.specs.Limits.{MakesPen};

    ghost then = { MakesPen };
}

/// The step that adds the first mark.
struct Begin;

impl Play<Mark, u64> for Begin {
    ghost use Rattle.plum_snap.specs.Limits.{Begins};

    ghost then = { Begins };
}

/// A step that adds a mark more.
struct Raise;

impl Play<Mark, u64> for Raise {
    ghost use Rattle.plum_snap.specs.Limits.{Raises};

    ghost then = { Raises };
}

/// A step that looks.
struct Look;

impl Play<Mark, u64> for Look {
    ghost use Rattle.plum_snap.specs.Limits.{Looks};

    ghost then = { Looks };
}

/// That the marks have come so far.
pub type Marks = Seen<Mark, u64, Rising>;

/// The limit, as sessions share it.
pub type SharedLimit = Word<Mark, u64, Rising>;

/// The limit, as its publisher has it. Contracts see whose it is, and the number.
#[derive(Drop)]
pub(crate) struct Limit {
    word: Arc<SharedLimit>,
    marks: Marks,
    pen: Pen,
    limit: u64,
}

impl Model for Limit {
    ghost use Rattle.std.specs.Prelude.{◌≡◌, ◌<◌};
    ghost use Rattle.std.specs.Arc.{arc_value};
    ghost use Rattle.logbook.specs.Pages.{may_write};
    ghost use Rattle.plum_snap.specs.Limits.{LimitView, limit_of, key_of, limit_word};

    ghost Value = { LimitView };

    ghost view = { λ l. record { book = l.marks.book; limit = l.limit } };

    ghost invariant = { λ l. (arc_value l.word ≡ limit_word l.marks.book)
        × (l.pen.book ≡ l.marks.book)
        × (l.pen.nib.right ≡ may_write)
        × (key_of l.marks.log ≡ l.pen.nib.key)
        × (limit_of l.marks.log ≡ l.limit)
        × (0 < l.limit) };
}

/// A pen for a word that no other has.
fn new_pen(word: &SharedLimit, marks: &Marks) -> Pen
    requires { word.now ≡ limit_word marks.now.book }
    ensures right { result.nib.right ≡ may_write }
    ensures book { result.book ≡ marks.now.book }
{
    let mut marks = marks.again();
    let mut pen = marks.no_pen();
    let mut offer: Offer<Mark, u64, Rising, Nothing> = marks.plain::<Nothing, Pen, Names>(&pen);
    word.compare_exchange::<MakePen, Nothing>(0, 0, &mut marks, &mut offer, &mut pen);
    let _word: SharedLimit = Word::tracked(0, &mut pen);
    pen
}

/// The limit, and the marks that are then seen.
pub(crate) fn read_limit(word: &SharedLimit, marks: &Marks) -> (u64, Marks)
    requires { word.now ≡ limit_word marks.now.book }
    ensures book { result.1.book ≡ marks.now.book }
    ensures limit { result.0 ≡ limit_of result.1.log }
{
    let mut marks = marks.again();
    let pen = marks.no_pen();
    let mut offer: Offer<Mark, u64, Rising, Nothing> = marks.plain::<Nothing, Pen, Names>(&pen);
    let limit = word.load::<Look, Nothing>(&mut marks, &mut offer);
    (limit, marks)
}

impl Limit {
    /// A new one: the empty front is published.
    pub(crate) fn begin(alloc: Global) -> Result<Limit, NoMemory>
        ensures { IfOk result (λ l. l.limit ≡ 1) }
    {
        let (mut marks, mut first, _second) = Seen::open(Start::alone(), 0, 0);
        let word: SharedLimit = Word::tracked(0, &mut first);
        let mut pen = new_pen(&word, &marks);
        let mut offer: Offer<Mark, u64, Rising, Nothing> = marks.plain::<Nothing, Pen, Names>(&pen);
        let found = word.compare_exchange::<Begin, Nothing>(0, 1, &mut marks, &mut offer, &mut pen);
        if found != 0 {
            // No run comes here: nobody else has the word yet.
            return Err(NoMemory);
        }
        Ok(Limit {
            word: Arc::new(alloc, word)?,
            marks,
            pen,
            limit: 1,
        })
    }

    /// The word, for a session.
    pub(crate) fn shared(&self) -> Result<Arc<SharedLimit>, NoMemory>
        ensures { IfOk result (λ word. arc_value word ≡ limit_word self.now.book) }
    {
        Ok(Arc::try_clone(&self.word)?)
    }

    /// What was written so far.
    pub(crate) fn marks(&self) -> Marks
        ensures book { result.book ≡ self.now.book }
        ensures limit { limit_of result.log ≡ self.now.limit }
    {
        self.marks.again()
    }

    /// From now on the limit is this.
    pub(crate) fn raise(&mut self, to: u64)
        requires { self.old.limit ≤ to }
        ensures { self.new ≡ record self.old { limit = to } }
    {
        let own = self.marks.again();
        self.write(&own, to);
    }

    /// No marks of this publisher go past its limit.
    pub(crate) fn covers(&mut self, other: &Marks)
        requires { other.now.book ≡ self.old.book }
        ensures limit { limit_of other.now.log ≤ self.old.limit }
        ensures same { self.new ≡ self.old }
    {
        let limit = self.limit;
        self.write(other, limit);
    }

    /// Writes a mark behind all that were written, these among them.
    fn write(&mut self, other: &Marks, to: u64)
        requires book { other.now.book ≡ self.old.book }
        requires rises { self.old.limit ≤ to }
        ensures covers { limit_of other.now.log ≤ self.old.limit }
        ensures new { self.new ≡ record self.old { limit = to } }
    {
        let mut marks = self.marks.again();
        marks.learn(other);
        let next = new_pen(&self.word, &marks);
        let mut offer: Offer<Mark, u64, Rising, Nothing> = marks.plain::<Nothing, Pen, Names>(
            &next,
        );
        self.word
            .compare_exchange::<Raise, Nothing>(
                self.limit,
                to,
                &mut marks,
                &mut offer,
                &mut self.pen,
            );
        self.marks = marks;
        self.pen = next;
        self.limit = to;
    }
}
