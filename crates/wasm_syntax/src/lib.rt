//! The abstract syntax of WebAssembly modules, for the integer instructions, and the grammar of
//! their bytes (Core Specification 1.0, chapters 2 and 5).
//!
//! # Example
//!
//! The body of a function that gives 42, and the test of a module against the limits:
//!
//! ```text
//! let mut body = ItemList::new(alloc);
//! body.push(Instruction::Const { value: Value::I32(42) })?;
//! body.push(Instruction::End)?;
//! let limited = LimitedModule::of(module);
//! ```
//!
//! # Promises
//!
//! - `Module` and its parts, `Instruction`, the operators and the types are plain data. `Value` and
//!   `Trap` are those of execution.
//! - `ItemList` is the list of its items, as `as_slice`, `len`, `is_empty` and `get` say. `new` is
//!   empty. `from_vec` and `into_vec` take and give a vector as it is. `push` puts an item after
//!   the others (`pushed`), or leaves all as it was (`unchanged`).
//! - `LimitedModule` is a module whose types and bodies are within the limits, by its type. `of` is
//!   the test (`exact`, `same`), and `module` and `into_module` give the module back.
//! - `Opener` is what an `end` closes.
//! - `limits` has this project's limits on modules, as `MODULE_BYTES` and `INSTRUCTIONS`. The
//!   definitions cite the same constants (`laws::module_limits_are`).
//! - `laws::bytes_spell_at_most_one_module`: two modules that the same bytes spell are equal.
//! - `laws::worked_examples`: whole modules beside their bytes, other spellings of one of them, and
//!   bytes that spell none.
//!
//! # Definitions to read
//!
//! In `specs/rules/`: `IsUnsigned`, `IsSigned`, `AreItems`, `IsVector`, types (`Items.antt`);
//! `IsInstruction`, `IsExpression` (`Instructions.antt`); `AreSections`, `IsModule`
//! (`Modules.antt`); `IsWithinLimits`, `IsLimited` (`Limits.antt`); `Sequence`, `Spells`
//! (`Sequence.antt`).
//!
//! # Who may touch what
//!
//! `ItemList` hides where items lie and how much room is reserved: neither is part of its value.
//! Only `LimitedModule::of` makes a `LimitedModule`. `wasm_decode` answers one, and `wasm_validate`
//! takes one. Most crates of this repository use this one, and it uses none. `ItemList::push` alone
//! takes memory. Where that is refused the item is handed back.
#![tactic(auto)]

pub mod laws;
pub mod limits;
mod opener;

pub use opener::Opener;

mod instruction;
mod item_list;
mod limited;
mod module;
mod operator;
mod types;
mod value;

pub use instruction::{Instruction, MemoryArgument};
pub use item_list::ItemList;
pub use limited::LimitedModule;
pub use module::{
    Code, Data, Element, Export, ExportItem, Function, Global, Import, ImportItem, Module,
};
pub use operator::{
    BinaryOperator, Comparison, Conversion, LoadOperator, StoreOperator, UnaryOperator,
};
pub use types::{FunctionType, GlobalType, Limits, MemoryType, Mutability, TableType, ValueType};
pub use value::{Trap, Value};
