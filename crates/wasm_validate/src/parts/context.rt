//! What typing looks up (section 3.1.1).

ghost use Rattle.std.specs.Prelude.{◌≡◌, ◌++◌, ◌↔◌, length, map, IsTrue, IfOk, IfErr, OnOk};
ghost use Rattle.std.specs.Prelude.{slice_get, option_copied};
ghost use Rattle.wasm_rules.specs.Types.{imported_functions};
ghost use Rattle.wasm_rules.specs.Typing.{Context as Typing, HasTable, HasMemory};
ghost use Rattle.wasm_syntax.specs.rules.Modules.{function_type_of};
ghost use Rattle.wasm_rules.specs.Validity.{globals_of};
ghost use Rattle.wasm_validate.specs.rules.Answers.{IsFor};
ghost use Rattle.wasm_validate.specs.Parts.Contexts.{IsContextOf, IsContextOfModule};
ghost use Rattle.wasm_validate.specs.Parts.Contexts.{HasFunctionTypes};

use crate::parts::counts::{memory_count, table_count};
use crate::parts::fault::ValidFault;
use crate::parts::indices::are_below;
use std::alloc::{AllocError, Global};
use wasm_syntax::{FunctionType, GlobalType, ImportItem, Module};

/// The types of a module's functions and globals, imported ones first, and whether it has a table
/// and a memory. Made once of a module; each answer takes constant time.
#[derive(Debug, Drop)]
pub struct ModuleContext<'m> {
    types: &'m [FunctionType],
    /// The index of the type of each function.
    function_types: Vec<u32>,
    globals: Vec<GlobalType>,
    has_table: bool,
    has_memory: bool,
}

/// The index of the type of each function, imported ones first.
pub fn function_type_indices(alloc: Global, module: &Module) -> Result<Vec<u32>, AllocError>
    ensures { IfOk result (λ v. v.items ≡ imported_functions «module».now.imports
        ++ map function_type_of «module».now.functions) }
{
    let mut indices = Vec::new(alloc);
    for import in module.imports.as_slice() {
        if let ImportItem::Function(index) = import.item {
            indices.push(index)?;
        }
    }
    for function in module.functions.as_slice() {
        indices.push(function.function_type)?;
    }
    Ok(indices)
}

/// The types of all globals.
fn global_types(alloc: Global, module: &Module) -> Result<Vec<GlobalType>, AllocError>
    ensures { IfOk result (λ v. v.items ≡ globals_of «module».now) }
{
    let mut types = Vec::new(alloc);
    for import in module.imports.as_slice() {
        if let ImportItem::Global(global_type) = import.item {
            types.push(global_type)?;
        }
    }
    for global in module.globals.as_slice() {
        types.push(global.global_type)?;
    }
    Ok(types)
}

impl<'m> ModuleContext<'m> {
    /// The context of a module. `Index` where a function's type doesn't exist.
    pub fn of(alloc: Global, module: &'m Module) -> Result<ModuleContext<'m>, ValidFault>
        ensures found { OnOk result (HasFunctionTypes «module».now) }
        ensures context { IfOk result (IsContextOfModule «module».now) }
        ensures refused { IfErr result (IsFor ValidFault.Index (HasFunctionTypes «module».now)) }
    {
        let types = module.types.as_slice();
        let function_types = function_type_indices(alloc, module)?;
        if !are_below(function_types.as_slice(), types.len()) {
            return Err(ValidFault::Index);
        }
        let globals = global_types(alloc, module)?;
        Ok(ModuleContext {
            types,
            function_types,
            globals,
            has_table: table_count(module) > 0,
            has_memory: memory_count(module) > 0,
        })
    }

    /// The type of a function.
    pub fn function_type(&self, x: u32) -> Option<&'m FunctionType>
        ensures { (c : Typing) → IsContextOf c self.now
            → option_copied result ≡ slice_get c.functions x }
    {
        let function_type = self.function_types.get(x as usize)?;
        self.type_at(*function_type)
    }

    /// A type of the type section.
    pub fn type_at(&self, x: u32) -> Option<&'m FunctionType>
        ensures { (c : Typing) → IsContextOf c self.now
            → option_copied result ≡ slice_get c.types x }
    {
        self.types.get(x as usize)
    }

    pub fn global_type(&self, x: u32) -> Option<GlobalType>
        ensures { (c : Typing) → IsContextOf c self.now → result ≡ slice_get c.globals x }
    {
        self.globals.get(x as usize).copied()
    }

    /// How many functions there are.
    pub fn function_count(&self) -> usize
        ensures { (c : Typing) → IsContextOf c self.now → result ≡ length c.functions }
    {
        self.function_types.len()
    }

    /// The types of all globals.
    pub fn globals(&self) -> &[GlobalType]
        ensures { (c : Typing) → IsContextOf c self.now → result.now ≡ c.globals }
    {
        self.globals.as_slice()
    }

    pub fn has_table(&self) -> bool
        ensures { (c : Typing) → IsContextOf c self.now → IsTrue result ↔ HasTable c }
    {
        self.has_table
    }

    pub fn has_memory(&self) -> bool
        ensures { (c : Typing) → IsContextOf c self.now → IsTrue result ↔ HasMemory c }
    {
        self.has_memory
    }
}
