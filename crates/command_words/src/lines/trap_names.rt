//! Last words of a worker.

ghost use Rattle.std.specs.Prelude.{◌≡◌};
ghost use Rattle.command_words.specs.rules.Texts.{trap_text};

use wasm_syntax::Trap;

/// The name of a trap, as it is printed.
pub fn trap_name(trap: Trap) -> &'static str
    ensures { result.now ≡ trap_text trap }
{
    match trap {
        Trap::Unreachable => "unreachable",
        Trap::DivideByZero => "integer divide by zero",
        Trap::IntegerOverflow => "integer overflow",
        Trap::MemoryOutOfBounds => "out of bounds memory access",
        Trap::UndefinedElement => "undefined element",
        Trap::UninitializedElement => "uninitialized element",
        Trap::IndirectCallTypeMismatch => "indirect call type mismatch",
        Trap::StackExhausted => "stack exhausted",
    }
}
