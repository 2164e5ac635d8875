//! The laws of outputs, each for whoever calls its function.

ghost use Rattle.plum_filter.specs.Stage.{OneOutput, OutputIs, AsLong};

/// A stage has exactly one output, and the function gives it.
pub fn one_output()
    ensures only { OneOutput }
    ensures is { OutputIs }
{}

/// The output of a cascade has a term for each of its input.
pub fn as_long()
    ensures { AsLong }
{}
