//! A field from its word. Of a word that no field is spelled by, any field may be answered.

ghost use Rattle.std.specs.Prelude.{◌≡◌, ℕ, ℤ, Bool, Option, Some, FitsSigned, decimal};
ghost use Rattle.std.specs.Int.{w16};
ghost use Rattle.plum_base.specs.declared.numbers.Tenths.{Tenths};
ghost use Rattle.plum_base.specs.declared.rules.Class.{Class};
ghost use Rattle.plum_scale.specs.Tenths.{magnitude_text, tenths_text};
ghost use Rattle.plum_text.specs.Fields.{Fits, FitsTenths, FitsValue, value_text};
ghost use Rattle.plum_text.specs.Fields.{class_or_none_text, run_text};

use plum_base::{Class, Tenths};
use plum_scale::class_read;
use std::str;

/// A number of 64 bits, where the word is its digits.
pub fn u64_read(word: &[u8]) -> Option<u64>
    ensures { (n : ℕ) → Fits 64 n → word.now ≡ decimal n → result ≡ Some n }
{
    str::from_utf8(word).ok()?.parse().ok()
}

/// A number of 32 bits.
pub fn u32_read(word: &[u8]) -> Option<u32>
    ensures { (n : ℕ) → Fits 32 n → word.now ≡ decimal n → result ≡ Some n }
{
    u32::try_from(u64_read(word)?).ok()
}

/// A number of 16 bits.
pub fn u16_read(word: &[u8]) -> Option<u16>
    ensures { (n : ℕ) → Fits 16 n → word.now ≡ decimal n → result ≡ Some n }
{
    u16::try_from(u64_read(word)?).ok()
}

/// A number of 8 bits.
pub fn u8_read(word: &[u8]) -> Option<u8>
    ensures { (n : ℕ) → Fits 8 n → word.now ≡ decimal n → result ≡ Some n }
{
    u8::try_from(u64_read(word)?).ok()
}

/// A whole part, a point and one digit, in tenths.
#[tactic(auto, using(crate::proofs::Magnitudes::magnitude_ends))]
fn magnitude_read(word: &[u8]) -> Option<u16>
    ensures { (n : ℕ) → Fits 16 n → word.now ≡ magnitude_text n → result ≡ Some n }
{
    let [whole @ .., b'.', digit @ b'0'..=b'9'] = word else {
        return None;
    };
    let tenths = u16_read(whole)?.checked_mul(10)?;
    tenths.checked_add(u16::from(*digit - b'0'))
}

/// A magnitude, behind a `-` where it is negative.
#[tactic(auto, using(crate::proofs::Magnitudes::first_digit, crate::proofs::Magnitudes::behind))]
fn signed_read(word: &[u8]) -> Option<i32>
    ensures { (t : ℤ) → FitsSigned w16 t → word.now ≡ tenths_text t → result ≡ Some t }
{
    match word {
        [b'-', magnitude @ ..] => Some(-i32::from(magnitude_read(magnitude)?)),
        magnitude => Some(i32::from(magnitude_read(magnitude)?)),
    }
}

fn tenths_read(word: &[u8]) -> Option<Tenths>
    ensures { (t : Tenths) → FitsTenths t → word.now ≡ tenths_text t.0 → result ≡ Some t }
{
    let tenths = i16::try_from(signed_read(word)?).ok()?;
    Some(Tenths(tenths))
}

/// A value, or none of `-`.
pub fn value_read(word: &[u8]) -> Option<Option<Tenths>>
    ensures { (v : Option Tenths) → FitsValue v → word.now ≡ value_text v → result ≡ Some v }
{
    match word {
        b"-" => Some(None),
        _ => Some(Some(tenths_read(word)?)),
    }
}

/// A class, or none of `-`.
pub fn class_or_none_read(word: &[u8]) -> Option<Option<Class>>
    ensures { (c : Option Class) → word.now ≡ class_or_none_text c → result ≡ Some c }
{
    match word {
        b"-" => Some(None),
        _ => Some(Some(class_read(word)?)),
    }
}

/// Whether the run letter is that of a fresh run.
pub fn run_read(word: &[u8]) -> Option<bool>
    ensures { (fresh : Bool) → word.now ≡ run_text fresh → result ≡ Some fresh }
{
    match word {
        b"F" => Some(true),
        b"C" => Some(false),
        _ => None,
    }
}
