//! What a module's sections hold.

ghost use Rattle.std.specs.Prelude.{◌≡◌, length};
ghost use Rattle.wasm_decode.specs.Answers.{GivesAll};
ghost use Rattle.wasm_decode.specs.Contents.{contents_read};
ghost use Rattle.wasm_decode.specs.Sections.{held};

use crate::fields::{functions_of, imports_of, row_of, short_row_of, start_of};
use crate::items::{ItemFault, ModuleLimit, ReadRefusal, Span};
use std::alloc::Global;
use wasm_syntax::Module;
use wasm_syntax::limits::GLOBALS;

/// The ids of sections.
pub mod id {
    pub const TYPES: usize = 1;

    pub const IMPORTS: usize = 2;

    pub const FUNCTION_TYPES: usize = 3;

    pub const TABLES: usize = 4;

    pub const MEMORIES: usize = 5;

    pub const GLOBAL_VARIABLES: usize = 6;

    pub const EXPORTS: usize = 7;

    pub const START: usize = 8;

    pub const ELEMENTS: usize = 9;

    pub const CODES: usize = 10;

    pub const DATA_SEGMENTS: usize = 11;
}

/// The module that the sections hold, by their bytes under their ids. They are read in the order of
/// their ids, in which they are. Functions without a code section are told last, as
/// `missing_code`.
#[tactic(auto, unfolding(crate::specs::Contents::contents_read))]
pub fn contents(
    alloc: Global,
    bodies: &[Option<Span>],
    missing_code: ReadRefusal,
) -> Result<Module, ItemFault>
    requires { length bodies.now ≡ 12 }
    ensures { GivesAll result (contents_read (held bodies.now)) }
{
    let types = row_of(alloc, bodies, id::TYPES)?;
    let imports = imports_of(alloc, bodies, id::IMPORTS)?;
    let function_types = short_row_of(
        alloc,
        bodies,
        id::FUNCTION_TYPES,
        imports.functions_left,
        ModuleLimit::Functions,
    )?;
    let tables = row_of(alloc, bodies, id::TABLES)?;
    let memories = row_of(alloc, bodies, id::MEMORIES)?;
    let globals = short_row_of(
        alloc,
        bodies,
        id::GLOBAL_VARIABLES,
        GLOBALS,
        ModuleLimit::Globals,
    )?;
    let exports = row_of(alloc, bodies, id::EXPORTS)?;
    let start = start_of(bodies, id::START)?;
    let elements = row_of(alloc, bodies, id::ELEMENTS)?;
    let functions = functions_of(alloc, bodies, id::CODES, &function_types)?;
    let data_segments = row_of(alloc, bodies, id::DATA_SEGMENTS)?;
    if functions.len() != function_types.len() {
        return Err(ItemFault::Refused(missing_code));
    }
    Ok(Module {
        types,
        imports: imports.items,
        functions,
        tables,
        memories,
        globals,
        exports,
        start,
        elements,
        data_segments,
    })
}
