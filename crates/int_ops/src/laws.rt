//! Laws of the definitions that the contracts of the operators cite.

ghost use Rattle.int_ops.specs.laws.Laws.{UnaryFits, BinaryFits, TruthFits, ConversionFits};
ghost use Rattle.int_ops.specs.laws.Laws.{ExtensionFits, IntegerExamples};

/// Every operator and every conversion gives an integer of its width.
pub fn results_fit()
    ensures unary { UnaryFits }
    ensures binary { BinaryFits }
    ensures truth { TruthFits }
    ensures conversion { ConversionFits }
    ensures extension { ExtensionFits }
{}

/// The definitions give the values that section 4.3.2 of the standard gives.
pub fn worked_examples()
    ensures { IntegerExamples }
{}
