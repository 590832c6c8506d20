//! What is proved of the definitions alone.

ghost use Rattle.wasm_validate.specs.Parts.Parts.{PartsGiveValid, ValidGivesParts};
ghost use Rattle.wasm_validate.specs.laws.FaultLaws.{ValidHasNoFault};
ghost use Rattle.wasm_validate.specs.laws.Algorithm.{PassesOnlyTyped, PassesAllTyped};
ghost use Rattle.wasm_validate.specs.laws.Reached.{CheckingFindsShapes};

/// What is checked before and after the code section, and the bodies, are all of validity.
pub fn parts_are_validity()
    ensures enough { PartsGiveValid }
    ensures needed { ValidGivesParts }
{}

// The law of the definitions. The function does nothing: what it ensures is the law.

/// Exactly what is typed passes the check.
pub fn checking_is_typing()
    ensures only { PassesOnlyTyped }
    ensures all { PassesAllTyped }
{}

/// A valid module has a fault of no kind.
pub fn valid_modules_have_no_fault()
    ensures { ValidHasNoFault }
{}

/// Checking a typed body from the front comes at each position to what typing gives there.
pub fn checking_finds_shapes()
    ensures { CheckingFindsShapes }
{}
