//! Indices (section 2.5.1).

ghost use Rattle.std.specs.Prelude.{◌≤◌, ◌<◌, ◌↔◌, IsTrue, All, length};
ghost use Rattle.wasm_rules.specs.Typing.{Context as Typing};
ghost use Rattle.wasm_rules.specs.Validity.{IsIndex};
ghost use Rattle.wasm_validate.specs.Parts.Contexts.{IsContextOf};

use crate::parts::context::ModuleContext;

/// Whether each index names something in a list of this length.
pub fn are_below(indices: &[u32], length: usize) -> bool
    ensures { IsTrue result ↔ All (λ x. x < length) indices.now }
{
    indices.iter().all(|x| (*x as usize) < length)
}

pub fn is_function(context: &ModuleContext, x: u32) -> bool
    ensures { (c : Typing) → IsContextOf c context.now → IsTrue result ↔ IsIndex c.functions x }
{
    (x as usize) < context.function_count()
}

/// Whether there is such a table, where there is one at most.
pub fn is_table(context: &ModuleContext, x: u32) -> bool
    ensures { (c : Typing) → IsContextOf c context.now → length c.tables ≤ 1 → IsTrue result
        ↔ IsIndex c.tables x }
{
    x == 0 && context.has_table()
}

/// Whether there is such a memory, where there is one at most.
pub fn is_memory(context: &ModuleContext, x: u32) -> bool
    ensures { (c : Typing) → IsContextOf c context.now → length c.memories ≤ 1 → IsTrue result
        ↔ IsIndex c.memories x }
{
    x == 0 && context.has_memory()
}

pub fn is_global(context: &ModuleContext, x: u32) -> bool
    ensures { (c : Typing) → IsContextOf c context.now → IsTrue result ↔ IsIndex c.globals x }
{
    (x as usize) < context.globals().len()
}
