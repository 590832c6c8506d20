//! The linear memory of a guest: bytes in whole pages, and a limit on pages (Core Specification
//! 1.0, sections 4.2.8 and 4.3.1.3).
//!
//! # Example
//!
//! ```text
//! let mut memory = Memory::new(alloc, 1, 16)?;
//! memory.store_u32(8, 0, 42);
//! let number = memory.load_u32(4, 4);
//! if memory.has(100, 5) {
//!     memory.part_mut(100, 5).copy_from_slice(b"hello");
//! }
//! let before = memory.grow(1);
//! ```
//!
//! # Promises
//!
//! - `Memory::new` is so many pages of zeros (`made`). Where the limit is 0 it can't fail
//!   (`no_room_wanted`).
//! - `len`, `is_empty`, `pages`, `limit` and `bytes` are those of the memory, whose bytes are whole
//!   pages within its limit (`shape`).
//! - `part` and `has` say exactly where a range is within memory (`there`). `part` gives its bytes.
//! - `part_mut` lends a range. When it comes back, no other byte has changed (`writes_back`).
//! - `write` puts bytes where they are within memory (`there`, `written`), and else changes nothing
//!   (`refused`). The same is true of `copy`, whose bytes are those that the source had before, and
//!   of `fill`.
//! - `load_u8` to `load_u64` give the number at address and offset, which add without wrapping
//!   (`there`, `number`). `store_u8` to `store_u64` put it there (`stored`), or change nothing
//!   (`refused`).
//! - `grow` puts pages of zeros after the others (`grown`), exactly where the limit allows it
//!   (`there`).
//! - `laws`: `are_bytes`, `has_64_bits`, `memories_are_of_bytes`, and what `PAGE_SIZE` and
//!   `MOST_PAGES` are.
//!
//! # Definitions to read
//!
//! In `specs/rules/`: `number_of`, `bytes_of`, `part`, `with_part` (`Bytes.antt`); `LinearMemory`,
//! `IsWithinLimit`, `grown_by` (`Memories.antt`). What a lent range ends as is `LendsRange`
//! (`Lends.antt`).
//!
//! # Who may touch what
//!
//! Only this crate knows that the bytes lie in one vector with room for all pages of the limit.
//! `machine_slots`, `machine`, `process` and `wasi_calls` use it, and most crates its definitions.
//! The crate uses no other one of this repository. `new` alone takes memory, and `M1 Memory` is its
//! only error. Growth takes none.
#![tactic(auto)]

pub mod laws;
mod memory;

pub use memory::{Memory, MemoryFault};

/// Bytes of a page.
pub const PAGE_SIZE: u32 = 65_536;

/// The most pages that a memory can have.
pub const MOST_PAGES: u32 = 65_536;
