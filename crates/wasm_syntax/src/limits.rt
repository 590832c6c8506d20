//! The limits on modules. Further limits hold of validity and of the configuration.

/// Bytes of a whole module.
pub const MODULE_BYTES: usize = 2 * 1024 * 1024;

/// Functions of a module, imported ones included.
pub const FUNCTIONS: usize = 4_096;

/// Opcodes of one expression, each `else` and `end` included.
pub const INSTRUCTIONS: usize = 4_096;

/// Parameters of a function type.
pub const PARAMETERS: usize = 256;

/// Declared locals of a function.
pub const LOCALS: usize = 256;

/// Entries that a table has at first.
pub const TABLE_ENTRIES: u32 = 4_096;

/// Globals that a module defines.
pub const GLOBALS: usize = 1_024;
