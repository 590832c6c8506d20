//! The slots of a machine, which hold locals and operands as bare words. Each instruction that is
//! no jump and no call does to them what the Core Specification 1.0 says (sections 4.4.1 to 4.4.4).
//!
//! # Example
//!
//! Two constants and their sum, by calls of their own:
//!
//! ```text
//! let mut slots = Slots::new(alloc)?;
//! constant(&mut slots, Value::I32(2));
//! constant(&mut slots, Value::I32(3));
//! apply_binary(&mut slots, ValueType::I32, BinaryOperator::Add)?;
//! let sum = slots.top();
//! ```
//!
//! # Promises
//!
//! - `operate`: whichever frame was shown, what the instruction's effect gives is shown then, or
//!   its trap is answered. An instruction that leads elsewhere changes nothing (`HasEffect`). There
//!   has to be room for one word more, and the frame has its operands (`room`, `ready`).
//! - `Slots` is a list of words, the top first. Its methods do to that list what their clauses say.
//! - Each kind of instruction has its own call, as `apply_binary`, `local_get`, `load` and
//!   `memory_fill`. What that does to the words on top is what the definitions say, or the trap is
//!   named (`EffectOutcome`).
//! - `typed_frames_are_ready`: a typed frame that is shown has the operands of its instruction.
//! - `words_are_slots`, `jumps_are_falls`: words and slots are the same list in either order, and
//!   branches, returns and entries are moves of words.
//! - `shapes_tell_positions`: no two positions of a body have one shape, so that what is in a frame
//!   tells its position.
//! - `limits` has the limits of the stack, and `SLOTS` is how many words there is room for.
//!
//! # Definitions to read
//!
//! `specs/rules/Places.antt`: `ShownFrame`, `MachineState`, `slots_of`, and `Shows`, which says
//! which configuration positions and slots show. Contracts also cite `HasEffect`
//! (`specs/Outcomes.antt`), `Cells` and `IsReady` (`specs/Frames.antt`), and `HasTwo` and its kin
//! (`specs/Words.antt`).
//!
//! # Who may touch what
//!
//! Only this crate knows that the words lie in one vector of fixed size. `machine` and
//! `machine_frame` use it, and `state_image` cites its definitions. `Slots::new` takes all memory.
//! Out of memory is the only error beside traps, which leave globals and memory as they were.
//!
//! # Choices
//!
//! - **What a machine shows is typed**: `Shows` includes well-typedness. A slot's number is in its
//!   type's range, and a waiting call fits the frame above it. Memory is whole pages, no fewer than
//!   the module's minimum, within the limit.
//! - Slots show a frame as operands, words below the label, locals turned, then the waiting frames.
//!   One relation (`ShowsEffect`) serves all instructions; what the slots hold after a trap is left
//!   open.
#![tactic(auto)]

mod effects;
mod integers;
mod laws;
pub mod limits;
mod linear_memory;
pub mod outcome;
mod parametric;
mod slots;
mod variables;
mod words;

pub use effects::operate;
pub use integers::{apply_binary, apply_comparison, apply_conversion, apply_unary, eqz};
pub use laws::{jumps_are_falls, shapes_tell_positions, typed_frames_are_ready, words_are_slots};
pub use linear_memory::{
    copy_bytes, fill_bytes, load, loaded_word, memory_copy, memory_fill, memory_grow, memory_size,
    store, store_word,
};
pub use outcome::EffectOutcome;
pub use parametric::{constant, drop_top, select};
pub use slots::{SLOTS, Slots};
pub use variables::{global_get, global_set, local_get, local_set, local_tee};
