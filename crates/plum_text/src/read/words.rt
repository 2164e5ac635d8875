//! The words of a line.

ghost use Rattle.std.specs.Prelude.{◌≡◌, ◌==◌, ◌<◌, ◌≤◌, ◌∷◌, ℕ, List, length, map, All};
ghost use Rattle.std.specs.Prelude.{MatchOption, IsSomeAnd};
ghost use Rattle.std.specs.List.{slice_split};
ghost use Rattle.plum_text.specs.Fields.{line, HasNoSpace};

use crate::spell::MOST_FIELDS;
use arrayvec::ArrayVec;

/// The most words of a line: its kind and its fields.
const MOST_WORDS: usize = 1 + MOST_FIELDS;

/// A kind, and its fields.
pub type Words<'a> = ArrayVec<&'a [u8], MOST_WORDS>;

/// The parts that the spaces of a text cut it into: none where these are more than the words of a
/// line.
fn parts(text: &[u8]) -> Option<Words<'_>>
    ensures { let parts = slice_split (λ b. b == 32) text.now in
        MatchOption result (MOST_WORDS < length parts)
        (λ words. map (λ w. w.now) words.items ≡ parts) }
{
    let mut words = ArrayVec::new();
    for word in text.split(|byte| *byte == b' ') {
        words.try_push(word).ok()?;
    }
    Some(words)
}

/// The kind and the fields of a line.
pub fn words_of(bytes: &[u8]) -> Option<Words<'_>>
    ensures { (kind : List ℕ) (more : List (List ℕ)) → HasNoSpace kind → All HasNoSpace more
        → length more ≤ MOST_FIELDS → bytes.now ≡ line kind more
        → IsSomeAnd result (λ words. map (λ w. w.now) words.items ≡ kind ∷ more) }
{
    match bytes {
        [text @ .., b'\n'] => parts(text),
        _ => None,
    }
}
