//! What memory begins with.

ghost use Rattle.std.specs.Prelude.{◌≡◌, ◌*◌, ◌≤◌, ◌↔◌, IfOk, IsTrue, replicate};
ghost use Rattle.std.specs.List.{AllByRecursion};
ghost use Rattle.guest_memory.specs.rules.Bytes.{page_size};
ghost use Rattle.wasm_rules.specs.Validity.{IsMemoryTypeValid};
ghost use Rattle.wasm_rules.specs.Instantiation.{empty_memory, least_pages_of, most_pages_of};
ghost use Rattle.wasm_rules.specs.Linking.{FitsPages};
ghost use Rattle.machine.specs.rules.Initial.{CanFillMemory, FillsMemory};

use crate::instance::constants::offset;
use guest_memory::{MOST_PAGES, Memory, MemoryFault};
use std::alloc::Global;
use wasm_syntax::{Data, Global as ModuleGlobal, MemoryType};

/// How many pages the first memory begins with.
pub fn first_pages(memories: &[MemoryType]) -> u32
    ensures empty { empty_memory memories.now ≡ replicate (result * page_size) 0 }
    ensures least { result ≡ least_pages_of memories.now }
{
    match memories.first() {
        Some(memory) => memory.limits.minimum,
        None => 0,
    }
}

/// How many pages the first memory may have, where no memory may have more than these.
fn most_pages(memories: &[MemoryType], pages: u32) -> u32
    ensures { result ≡ most_pages_of memories.now pages }
{
    match memories.first() {
        Some(memory) => memory.limits.maximum.map_or(pages, |most| most.min(pages)),
        None => 0,
    }
}

/// Whether each memory begins with no more pages than these.
pub fn fits_pages(memories: &[MemoryType], pages: u32) -> bool
    ensures { IsTrue result ↔ FitsPages memories.now pages }
{
    for memory in memories {
        if memory.limits.minimum > pages {
            return false;
        }
    }
    true
}

/// Puts each data segment into memory, in their order.
fn fill_memory(globals: &[ModuleGlobal], segments: &[Data], memory: &mut Memory)
    requires { CanFillMemory globals.now segments.now memory.old.bytes }
    ensures bytes { FillsMemory globals.now segments.now memory.old.bytes memory.new.bytes }
    ensures limit { memory.new.limit ≡ memory.old.limit }
{
    for segment in segments {
        let from = offset(globals, segment.offset.as_slice()).unwrap();
        memory.write(from, segment.bytes.as_slice()).unwrap();
    }
}

/// The first memory with its data segments. It may have no more pages than these.
pub fn initial_memory(
    alloc: Global,
    memories: &[MemoryType],
    pages: u32,
    globals: &[ModuleGlobal],
    segments: &[Data],
) -> Result<Memory, MemoryFault>
    requires valid { AllByRecursion IsMemoryTypeValid memories.now }
    requires limited { pages ≤ MOST_PAGES }
    requires fits { FitsPages memories.now pages }
    requires inside { CanFillMemory globals.now segments.now (empty_memory memories.now) }
    ensures bytes { IfOk result (λ memory. FillsMemory globals.now segments.now
        (empty_memory memories.now) memory.bytes) }
    ensures limit { IfOk result (λ memory. memory.limit ≡ most_pages_of memories.now pages) }
{
    let mut memory = Memory::new(alloc, first_pages(memories), most_pages(memories, pages))?;
    fill_memory(globals, segments, &mut memory);
    Ok(memory)
}
