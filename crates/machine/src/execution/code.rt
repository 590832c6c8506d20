//! What a machine executes.

use crate::routines::Routine;
use wasi_abi::Call;
use wasm_validate::ValidModule;

/// A linked module as it is executed. Nothing changes it.
#[derive(Debug, Drop)]
pub struct Executable {
    pub module: ValidModule,
    /// The calls that the imports name, in their order. They are the first functions.
    pub calls: Vec<Call>,
    /// The index of the type of each function.
    pub type_indices: Vec<u32>,
    /// What each of the module's own functions needs, in their order.
    pub routines: Vec<Routine>,
    /// The function that each entry names, if it names one.
    pub table: Vec<Option<u32>>,
}
