//! The memory itself, seen as a list of bytes with a limit.
//!
//! # Choices
//!
//! - A part is lent for writing where `has` says that it is in memory. A `requires` is there in
//!   place of an `Option`, since the toolchain proves no `Option` of a lent part.
//! - Reserved room is in the invariant and not in the value, so equal memories are equal values.
//! - Loads and stores of all widths compare where they begin with one number that the memory keeps
//!   (`reach`), the end less seven bytes. Most take one comparison, and no second sum. Those that
//!   begin there or behind compare their end, too. A function for that, which isn't inlined, cost
//!   the loop over opcodes 7% more of the processor's instructions: a call keeps few registers.

ghost use Rattle.std.specs.Prelude.{◌≡◌, ◌+◌, ◌-◌, ◌*◌, ◌≤◌, ◌<◌, ◌^◌, ◌↔◌, ◌==◌, length, IfOk};
ghost use Rattle.std.specs.Prelude.{IsTrue, IsOk, IsSome, IfSome, OnSome, IfNone, replicate};
ghost use Rattle.guest_memory.specs.rules.Bytes.{number_of, bytes_of, page_size, part};
ghost use Rattle.guest_memory.specs.rules.Memories.{IsWithinLimit, grown_by, pages_in, with_bytes};
ghost use Rattle.guest_memory.specs.rules.Memories.{zeroed};

use crate::{MOST_PAGES, PAGE_SIZE};
use byteorder::{ByteOrder, LittleEndian};
use std::alloc::Global;
use std::marker::Model;
use thiserror::Error;

/// How many bytes a fill writes at once. The C library writes some thousands by `rep stosb`, of
/// which each byte is counted as an instruction.
const FILLED_AT_ONCE: usize = 1_024;

/// Writes a byte to each place.
fn fill_in_parts(bytes: &mut [u8], byte: u8)
    ensures { bytes.new ≡ replicate (length bytes.old) byte }
{
    let mut done = 0;
    while done < bytes.len() {
        let part = (bytes.len() - done).min(FILLED_AT_ONCE);
        bytes[done..done + part].fill(byte);
        done += part;
    }
}

/// How many of so many bytes have seven more after them.
fn reach_of(len: usize) -> usize
    ensures { result ≡ len - 7 }
{
    len.saturating_sub(7)
}

/// Why a memory can't be made.
#[derive(Clone, Copy, Debug, PartialEq, Eq, Error)]
pub enum MemoryFault {
    /// The host has no room for as many pages as the limit allows.
    #[error("M1 Memory")]
    Memory,
}

/// The linear memory of a guest: bytes in whole pages, with room for all pages that its limit
/// allows. Contracts see its bytes and its limit.
#[derive(Debug, Drop)]
pub struct Memory {
    bytes: Vec<u8>,
    limit: u32,
    /// From each place below this one on there are 8 bytes. So a number that begins there is within
    /// memory, whatever its width.
    reach: usize,
}

impl Model for Memory {
    ghost use Rattle.std.specs.Prelude.{◌≡◌, ◌-◌, ◌*◌, ◌≤◌, length, vec_capacity};
    ghost use Rattle.guest_memory.specs.rules.Bytes.{page_size};
    ghost use Rattle.guest_memory.specs.rules.Memories.{LinearMemory, IsWithinLimit};

    ghost Value = { LinearMemory };

    ghost view = { λ m. record { bytes = m.bytes.items; limit = m.limit } };

    ghost invariant = { λ m. IsWithinLimit (record { bytes = m.bytes.items; limit = m.limit })
        × (m.limit * page_size ≤ vec_capacity m.bytes)
        × (m.reach ≡ length m.bytes.items - 7) };
}

impl Memory {
    ghost use Rattle.std.specs.Borrow.{sem};
    ghost use Rattle.guest_memory.specs.rules.Lends.{LendsRange};

    /// So many pages of zero bytes, with room for as many as the limit. It fails only when out of
    /// memory.
    pub fn new(alloc: Global, pages: u32, limit: u32) -> Result<Memory, MemoryFault>
        requires within { pages ≤ limit }
        requires limited { limit ≤ MOST_PAGES }
        ensures made { IfOk result (λ m. m ≡ zeroed pages limit) }
        ensures no_room_wanted { limit ≡ 0 → IsOk result }
    {
        let room = limit as usize * PAGE_SIZE as usize;
        let Ok(mut bytes) = Vec::with_capacity(alloc, room) else {
            return Err(MemoryFault::Memory);
        };
        bytes
            .resize(pages as usize * PAGE_SIZE as usize, 0)
            .unwrap();
        let reach = reach_of(bytes.len());
        Ok(Memory {
            bytes,
            limit,
            reach,
        })
    }

    /// How many bytes there are.
    pub fn len(&self) -> usize
        ensures len { result ≡ length self.now.bytes }
        ensures shape { IsWithinLimit self.now }
    {
        self.bytes.len()
    }

    /// Whether there are no bytes.
    pub fn is_empty(&self) -> bool
        ensures { result ≡ (length self.now.bytes == 0) }
    {
        self.bytes.is_empty()
    }

    /// How many pages there are.
    pub fn pages(&self) -> u32
        ensures { result ≡ pages_in self.now }
    {
        (self.len() / PAGE_SIZE as usize) as u32
    }

    /// How many pages there may be.
    pub fn limit(&self) -> u32
        ensures { result ≡ self.now.limit }
    {
        self.limit
    }

    /// All bytes.
    pub fn bytes(&self) -> &[u8]
        ensures { result.now ≡ self.now.bytes }
    {
        self.bytes.as_slice()
    }

    /// A range of bytes, or nothing where it reaches beyond the end.
    pub fn part(&self, from: u32, len: u32) -> Option<&[u8]>
        ensures there { IsSome result ↔ (from + len ≤ length self.now.bytes) }
        ensures bytes { IfSome result (λ s. s.now ≡ part self.now.bytes from len) }
        ensures len { IfSome result (λ s. length s.now ≡ len) }
    {
        self.range(from as usize, len as usize)
    }

    /// Whether a range of bytes is within memory.
    pub fn has(&self, from: u32, len: u32) -> bool
        ensures { IsTrue result ↔ (from + len ≤ length self.now.bytes) }
    {
        from as usize + len as usize <= self.len()
    }

    fn range(&self, from: usize, len: usize) -> Option<&[u8]>
        requires { from + len < 2 ^ 64 }
        ensures there { IsSome result ↔ (from + len ≤ length self.now.bytes) }
        ensures bytes { IfSome result (λ s. s.now ≡ part self.now.bytes from len) }
    {
        self.bytes.get(from..from + len)
    }

    /// Whether a number of so many bytes is within memory. Nearly all begin below `reach`, and take
    /// one comparison.
    #[inline(always)]
    fn has_number(&self, from: usize, len: usize) -> bool
        requires fits { from + len < 2 ^ 64 }
        requires width { len ≤ 8 }
        ensures { IsTrue result ↔ (from + len ≤ length self.now.bytes) }
    {
        if from < self.reach {
            return true;
        }
        from + len <= self.bytes.len()
    }

    /// The bytes of a number, or nothing where they reach beyond the end.
    #[inline(always)]
    fn number_range(&self, from: usize, len: usize) -> Option<&[u8]>
        requires fits { from + len < 2 ^ 64 }
        requires width { len ≤ 8 }
        ensures there { IsSome result ↔ (from + len ≤ length self.now.bytes) }
        ensures bytes { IfSome result (λ s. s.now ≡ part self.now.bytes from len) }
    {
        if !self.has_number(from, len) {
            return None;
        }
        Some(&self.bytes[from..from + len])
    }

    /// A range of bytes to be written, which `has` says is within memory. No other byte changes.
    pub fn part_mut(&mut self, from: u32, len: u32) -> &mut [u8]
        requires { from + len ≤ length self.old.bytes }
        ensures* writes_back { sem 𝓛 (LendsRange self.entry from result) }
        ensures bytes { result.now ≡ part self.old.bytes from len }
        ensures len { length result.now ≡ len }
    {
        self.range_mut(from as usize, len as usize)
    }

    fn range_mut(&mut self, from: usize, len: usize) -> &mut [u8]
        requires { from + len ≤ length self.old.bytes }
        ensures* writes_back { sem 𝓛 (LendsRange self.entry from result) }
        ensures bytes { result.now ≡ part self.old.bytes from len }
    {
        self.bytes.slice_mut(from..from + len)
    }

    /// Puts bytes there, or changes nothing where they reach beyond the end.
    pub fn write(&mut self, from: u32, bytes: &[u8]) -> Option<()>
        ensures there { IsSome result ↔ (from + length bytes.now ≤ length self.old.bytes) }
        ensures written { OnSome result (self.new ≡ with_bytes from bytes.now self.old) }
        ensures refused { IfNone result (self.new ≡ self.old) }
    {
        let from = from as usize;
        let room = self.len().checked_sub(from)?;
        if bytes.len() > room {
            return None;
        }
        self.range_mut(from, bytes.len()).copy_from_slice(bytes);
        Some(())
    }

    /// Copies so many bytes from one place to another. The ranges may overlap: each byte is as it
    /// was before. Changes nothing where either reaches beyond the end.
    #[inline(never)]
    pub fn copy(&mut self, to: u32, from: u32, len: u32) -> Option<()>
        ensures there { IsSome result ↔ ((to + len ≤ length self.old.bytes)
            × (from + len ≤ length self.old.bytes)) }
        ensures copied { OnSome result (self.new
            ≡ with_bytes to (part self.old.bytes from len) self.old) }
        ensures refused { IfNone result (self.new ≡ self.old) }
    {
        let (to, from, len) = (to as usize, from as usize, len as usize);
        if to + len > self.len() || from + len > self.len() {
            return None;
        }
        self.bytes.copy_within(from..from + len, to);
        Some(())
    }

    /// Puts a byte to so many places from one on, or changes nothing where they reach beyond the
    /// end.
    #[inline(never)]
    pub fn fill(&mut self, to: u32, byte: u8, len: u32) -> Option<()>
        ensures there { IsSome result ↔ (to + len ≤ length self.old.bytes) }
        ensures filled { OnSome result (self.new ≡ with_bytes to (replicate len byte) self.old) }
        ensures refused { IfNone result (self.new ≡ self.old) }
    {
        let (to, len) = (to as usize, len as usize);
        if to + len > self.len() {
            return None;
        }
        fill_in_parts(self.range_mut(to, len), byte);
        Some(())
    }

    /// The byte at `address + offset`, or nothing where that is beyond the end.
    pub fn load_u8(&self, address: u32, offset: u32) -> Option<u8>
        ensures there { IsSome result ↔ (address + offset + 1 ≤ length self.now.bytes) }
        ensures number { IfSome result (λ n. n
            ≡ number_of (part self.now.bytes (address + offset) 1)) }
    {
        let bytes = self.number_range(address as usize + offset as usize, 1)?;
        Some(bytes[0])
    }

    /// The number in the 2 bytes at `address + offset`, or nothing where they reach beyond the end.
    pub fn load_u16(&self, address: u32, offset: u32) -> Option<u16>
        ensures there { IsSome result ↔ (address + offset + 2 ≤ length self.now.bytes) }
        ensures number { IfSome result (λ n. n
            ≡ number_of (part self.now.bytes (address + offset) 2)) }
    {
        let bytes = self.number_range(address as usize + offset as usize, 2)?;
        Some(LittleEndian::read_u16(bytes))
    }

    /// The number in the 4 bytes at `address + offset`, or nothing where they reach beyond the end.
    pub fn load_u32(&self, address: u32, offset: u32) -> Option<u32>
        ensures there { IsSome result ↔ (address + offset + 4 ≤ length self.now.bytes) }
        ensures number { IfSome result (λ n. n
            ≡ number_of (part self.now.bytes (address + offset) 4)) }
    {
        let bytes = self.number_range(address as usize + offset as usize, 4)?;
        Some(LittleEndian::read_u32(bytes))
    }

    /// The number in the 8 bytes at `address + offset`, or nothing where they reach beyond the end.
    pub fn load_u64(&self, address: u32, offset: u32) -> Option<u64>
        ensures there { IsSome result ↔ (address + offset + 8 ≤ length self.now.bytes) }
        ensures number { IfSome result (λ n. n
            ≡ number_of (part self.now.bytes (address + offset) 8)) }
    {
        let bytes = self.number_range(address as usize + offset as usize, 8)?;
        Some(LittleEndian::read_u64(bytes))
    }

    /// Puts a byte at `address + offset`, or changes nothing where that is beyond the end.
    pub fn store_u8(&mut self, address: u32, offset: u32, value: u8) -> Option<()>
        ensures there { IsSome result ↔ (address + offset + 1 ≤ length self.old.bytes) }
        ensures stored { OnSome result (self.new
            ≡ with_bytes (address + offset) (bytes_of 1 value) self.old) }
        ensures refused { IfNone result (self.new ≡ self.old) }
    {
        let from = address as usize + offset as usize;
        if !self.has_number(from, 1) {
            return None;
        }
        self.range_mut(from, 1)[0] = value;
        Some(())
    }

    /// Puts a number into the 2 bytes at `address + offset`, or changes nothing where they reach
    /// beyond the end.
    pub fn store_u16(&mut self, address: u32, offset: u32, value: u16) -> Option<()>
        ensures there { IsSome result ↔ (address + offset + 2 ≤ length self.old.bytes) }
        ensures stored { OnSome result (self.new
            ≡ with_bytes (address + offset) (bytes_of 2 value) self.old) }
        ensures refused { IfNone result (self.new ≡ self.old) }
    {
        let from = address as usize + offset as usize;
        if !self.has_number(from, 2) {
            return None;
        }
        LittleEndian::write_u16(self.range_mut(from, 2), value);
        Some(())
    }

    /// Puts a number into the 4 bytes at `address + offset`, or changes nothing where they reach
    /// beyond the end.
    pub fn store_u32(&mut self, address: u32, offset: u32, value: u32) -> Option<()>
        ensures there { IsSome result ↔ (address + offset + 4 ≤ length self.old.bytes) }
        ensures stored { OnSome result (self.new
            ≡ with_bytes (address + offset) (bytes_of 4 value) self.old) }
        ensures refused { IfNone result (self.new ≡ self.old) }
    {
        let from = address as usize + offset as usize;
        if !self.has_number(from, 4) {
            return None;
        }
        LittleEndian::write_u32(self.range_mut(from, 4), value);
        Some(())
    }

    /// Puts a number into the 8 bytes at `address + offset`, or changes nothing where they reach
    /// beyond the end.
    pub fn store_u64(&mut self, address: u32, offset: u32, value: u64) -> Option<()>
        ensures there { IsSome result ↔ (address + offset + 8 ≤ length self.old.bytes) }
        ensures stored { OnSome result (self.new
            ≡ with_bytes (address + offset) (bytes_of 8 value) self.old) }
        ensures refused { IfNone result (self.new ≡ self.old) }
    {
        let from = address as usize + offset as usize;
        if !self.has_number(from, 8) {
            return None;
        }
        LittleEndian::write_u64(self.range_mut(from, 8), value);
        Some(())
    }

    /// Puts so many pages of zero bytes after the others, and gives the number of pages before, or
    /// changes nothing where that would pass the limit. It takes no memory.
    pub fn grow(&mut self, by: u32) -> Option<u32>
        ensures there { IsSome result ↔ (pages_in self.old + by ≤ self.old.limit) }
        ensures pages { IfSome result (λ pages. pages ≡ pages_in self.old) }
        ensures grown { OnSome result (self.new ≡ grown_by by self.old) }
        ensures refused { IfNone result (self.new ≡ self.old) }
    {
        let pages = self.pages();
        if by > self.limit - pages {
            return None;
        }
        let len = self.len() + by as usize * PAGE_SIZE as usize;
        self.bytes.resize(len, 0).unwrap();
        self.reach = reach_of(len);
        Some(pages)
    }
}
