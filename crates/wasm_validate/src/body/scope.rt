//! What the body of a function looks up.

ghost use Rattle.std.specs.Prelude.{◌≡◌, ◌↔◌, IsTrue, slice_get, option_copied};
ghost use Rattle.wasm_rules.specs.Typing.{Context as Typing, HasTable, HasMemory};
ghost use Rattle.wasm_validate.specs.Body.Scopes.{IsScopeOf, LooksUp};

use crate::parts::{ModuleContext, ValidFault};
use wasm_syntax::{FunctionType, GlobalType, ValueType};

/// The module's context with the function's type and the types of its declared locals.
#[derive(Debug, Drop)]
pub struct Scope<'a, 'm> {
    pub context: &'a ModuleContext<'m>,
    pub parameters: &'a [ValueType],
    pub declared: &'a [ValueType],
    pub returns: &'a [ValueType],
}

impl Scope<'_, '_> {
    /// The type of a parameter or of a declared local after them. `Index` where there is none.
    pub fn local(&self, number: u32) -> Result<ValueType, ValidFault>
        ensures { (c : Typing) → IsScopeOf c self.now → LooksUp result (slice_get c.locals number) }
    {
        let number = number as usize;
        let found = match number.checked_sub(self.parameters.len()) {
            Some(behind) => self.declared.get(behind),
            None => self.parameters.get(number),
        };
        found.copied().ok_or(ValidFault::Index)
    }

    /// The type of a global. `Index` where there is none.
    pub fn global(&self, number: u32) -> Result<GlobalType, ValidFault>
        ensures { (c : Typing) → IsScopeOf c self.now
            → LooksUp result (slice_get c.globals number) }
    {
        self.context.global_type(number).ok_or(ValidFault::Index)
    }
}
