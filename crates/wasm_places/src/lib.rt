//! Where in a module's bytes one of them lies: in which section, and there in which function or
//! type. This is for messages about a fault: bytes that spell no module are read, too.
//!
//! # Example
//!
//! A message names the function in which the byte at a fault's offset lies:
//!
//! ```text
//! match place_of(wasm, at) {
//!     Some(ModulePlace::Function(number)) => writeln!(out, "in function {number}"),
//!     _ => Ok(()),
//! }
//! ```
//!
//! # Promises
//!
//! - `place_of`: the place of the byte at an offset, or that it has none (`LiesAt`).
//! - `use_of_type`: the first function that has the type with a number, or that none has it
//!   (`IsTypeUse`).
//! - `name_of_function`: the name that the module's name section gives a function, where it may be
//!   printed, or that it gives none (`ModuleNames`, `IsGoodName`).
//! - `float_words`: the name of an opcode of floats, or of one of their types (`float_words`).
//!
//! # Definitions to read
//!
//! In `specs/rules/`: `LiesAt`, `IsModulePlace`, `IsInSection`, `IsInFunction`, `IsInType`
//! (`Places.antt`); `IsTypeUse`, `DeclaresFunctions`, `IsFirstOfType` (`Uses.antt`); `ModuleNames`,
//! `MapNames`, `IsGoodName`, `LacksGood` (`FunctionNames.antt`); `float_words` (`Floats.antt`). The
//! words are those of the binary grammar, which is in `wasm_syntax`.
//!
//! # Who may touch what
//!
//! Nothing is judged here: whether bytes spell a module, only `wasm_decode` says. The commands ask
//! for a place once `wasm_decode` has refused the bytes. No memory is taken.
//!
//! # Choices
//!
//! - **For a place only what lies before the byte is read**, and of the sections only their sizes:
//!   the rest may spell nothing.
//! - **A type's use is read from all sections**, since functions come behind their types. Where the
//!   bytes aren't sections, or those of functions hold other things, it isn't known.
//! - **Of a name section only what lies before the name is read**: the rest may spell nothing. A
//!   name is believed in nothing: it is printed beside a number, and only as printable ASCII.
//! - **A function's number counts imported functions first**, as an index of the module does.
#![tactic(auto)]

mod entries;
mod floats;
mod function_names;
mod imports;
mod place;
mod reader;
mod sections;
mod uses;

pub use floats::{FloatWords, float_words};
pub use function_names::name_of_function;
pub use imports::ImportNames;
pub use place::{ModulePlace, place_of};
pub use uses::{TypeUse, TypedFunction, use_of_type};
