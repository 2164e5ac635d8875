//! The laws of classes and texts, each for whoever calls its function.

ghost use Rattle.plum_scale.specs.Laws.{RiseTogether, OneClass, OneIntensity};

/// The order of the classes.
pub fn classes_rise_with_intensities()
    ensures { RiseTogether }
{}

/// What a text says, it says of one class or one intensity.
pub fn texts_are_distinct()
    ensures class { OneClass }
    ensures intensity { OneIntensity }
{}
