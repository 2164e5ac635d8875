//! The class of a reading.

ghost use Rattle.std.specs.Prelude.{◌≡◌, Option, if◌then◌else◌};
ghost use Rattle.plum_base.specs.declared.numbers.Tenths.{Tenths};
ghost use Rattle.plum_alert.specs.Readings.{greatest_of, class_of_reading, is_below, is_above};
ghost use Rattle.plum_alert.specs.Readings.{reaches};

use plum_base::{Class, Reading, Tenths};
use plum_scale::class_of;

/// The greatest of these answers, none where all are none.
fn greatest_answer(answers: &[Option<Tenths>]) -> Option<Tenths>
    ensures { result ≡ greatest_of answers.now }
{
    answers.iter().copied().flatten().max()
}

/// The class of a reading: that of its greatest answer, none where every answer is none.
pub fn class_of_reading(reading: &Reading) -> Option<Class>
    ensures { result ≡ class_of_reading reading.now }
{
    let greatest = greatest_answer(reading.answers.as_slice())?;
    Some(class_of(greatest))
}

/// Whether a class is below another; none is below every class.
pub fn is_below(own: Option<Class>, class: Class) -> bool
    ensures { result ≡ is_below own class }
{
    own.is_none_or(|own| own < class)
}

/// Whether a class is that class or above.
pub fn reaches(own: Option<Class>, class: Class) -> bool
    ensures { result ≡ reaches own class }
{
    own.is_some_and(|own| own >= class)
}

/// A class where it is above another, else none.
pub fn above(own: Option<Class>, class: Class) -> Option<Class>
    ensures { result ≡ (if is_above own class then own else None) }
{
    own.filter(|own| *own > class)
}
