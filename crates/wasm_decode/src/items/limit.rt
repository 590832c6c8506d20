//! The limits of modules that the readers keep to.

/// A limit of modules, by the number of `wasm_syntax::limits` that it is.
#[derive(Clone, Copy, Debug, PartialEq, Eq)]
pub enum ModuleLimit {
    /// The bytes of a module, at most `MODULE_BYTES`.
    Bytes,
    /// Its functions with the imported ones, at most `FUNCTIONS`.
    Functions,
    /// The instructions of one expression, at most `INSTRUCTIONS`.
    Instructions,
    /// The parameters of one type, at most `PARAMETERS`.
    Parameters,
    /// The declared locals of one body, at most `LOCALS`.
    Locals,
    /// The entries that a table begins with, at most `TABLE_ENTRIES`.
    TableEntries,
    /// The globals of a module, at most `GLOBALS`, imported ones not counted.
    Globals,
}

/// A limit that the bytes pass, and where.
#[derive(Clone, Copy, Debug, PartialEq, Eq)]
pub struct PassedLimit {
    pub limit: ModuleLimit,
    /// The offset in bytes, from the first of all bytes, of what is too many: of the count that is
    /// too great, or of the item or byte after the last that the limit allows.
    pub at: usize,
}
