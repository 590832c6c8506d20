//! What comes of an instruction.

ghost use Rattle.std.specs.Prelude.{◌≡◌};
ghost use Rattle.machine_slots.specs.Outcomes.{outcome_of};

use wasm_syntax::Trap;

/// What comes of an instruction.
#[derive(Clone, Copy, Debug, PartialEq, Eq)]
pub enum EffectOutcome {
    /// Its effect is done, and the next instruction follows.
    Done,
    /// It traps.
    Trapped(Trap),
    /// Nothing yet: it leads elsewhere than to the next instruction, or nowhere.
    Elsewhere,
}

/// What comes of an instruction that may trap.
#[inline(always)]
pub(crate) fn outcome_of(answer: Result<(), Trap>) -> EffectOutcome
    ensures { result ≡ outcome_of answer }
{
    match answer {
        Ok(()) => EffectOutcome::Done,
        Err(trap) => EffectOutcome::Trapped(trap),
    }
}
