//! Laws of the binary grammar: calls that do nothing, whose contracts hold of all bytes.

ghost use Rattle.wasm_syntax.specs.laws.ModuleLimits.{ModuleLimitNumbers};
ghost use Rattle.wasm_syntax.specs.laws.Laws.{BytesSpellAtMostOneModule, GrammarExamples};

/// The grammar leaves a decoder no choice of what bytes mean.
pub fn bytes_spell_at_most_one_module()
    ensures { BytesSpellAtMostOneModule }
{}

/// Whole modules beside their bytes, other spellings of one of them, and bytes that are no module.
pub fn worked_examples()
    ensures { GrammarExamples }
{}

/// What each limit on modules is.
pub fn module_limits_are()
    ensures { ModuleLimitNumbers }
{}
