//! Decoding: from bytes to a module, exactly as the binary format spells it (Core Specification
//! 1.0, chapter 5), within this project's limits.
//!
//! # Example
//!
//! ```text
//! match decode(alloc, bytes) {
//!     Ok(module) => validate(alloc, module),
//!     Err(fault) => report(fault, fault.place(), fault.passed_limit()),
//! }
//! ```
//!
//! Here `report` is the caller's.
//!
//! # Promises
//!
//! - `decode`: the module is spelled by all of the bytes, and is within the limits (`found`). A
//!   fault other than out of memory comes only where the bytes spell no such module (`only`).
//! - `decode_types`, `decode_imports`: what this one section holds, whatever the others do
//!   (`found`). A fault other than out of memory comes only where the bytes are no sections, or
//!   this one holds no such thing (`only`).
//! - `find_code_faults`: a fault of each code entry that is no code within the limits, and of no
//!   other, in their order (`HasCodeFaults`). Each entry is judged by its own bytes, and those
//!   before and after it change nothing. Where an entry's size can't be read, the list ends, and
//!   says so.
//! - `DecodeFault::place` is the offset that a fault names, where it names one (`place_of`).
//!   `DecodeFault::passed_limit` is the limit that `B3 Limit` is about, with its offset
//!   (`passed_of`).
//!
//! No clause says which fault it is, nor which limit or offset: tests show them. Since bytes spell
//! at most one module (`wasm_syntax::laws`), the module that is found is the only one.
//!
//! # Definitions to read
//!
//! `specs/rules/Faults.antt`: `place_of`, `passed_of`, `decode_fault`. `specs/rules/Parts.antt`:
//! `HasTypes`, `HasImports`, `HasCodeFaults`, `LacksPart`. What a module's bytes are is
//! defined in `wasm_syntax`: `IsModule` (`specs/rules/Modules.antt`), `IsWithinLimits` and
//! `HasNoModule` (`specs/rules/Limits.antt`).
//!
//! # Who may touch what
//!
//! Only this crate judges the binary format. Its readers, their places in the bytes, and the order
//! in which they judge are hidden behind the functions above. `machine` uses `decode`, and
//! `command_words` the others, too. `wasm_places` reads the format to say where a fault lies, and
//! judges nothing. Memory is taken in proportion to the bytes, whatever counts they declare. Out of
//! memory is `B4 Memory`; the others are `B1 Malformed`, `B2 Float` and `B3 Limit`. After a fault
//! nothing is kept.
#![tactic(auto)]

mod code_faults;
mod codes;
mod contents;
mod fault;
mod fields;
mod imported;
mod items;
mod parts;
mod sections;
mod whole;

pub use code_faults::{CodeFault, CodeFaults};
pub use fault::DecodeFault;
pub use items::{ModuleLimit, PassedLimit};
pub use parts::{decode_imports, decode_types, find_code_faults};
pub use whole::decode;
