//! The buffers of a guest that bytes are moved from or to.
//!
//! **Buffers are read once, before anything is written**, into an inline array. A buffer may then
//! lie over the array of the buffers. An array of as many as a call may name has 8 KB, which are
//! cleared first. A call that names few has a shorter array for that.

ghost use Rattle.std.specs.Prelude.{◌≡◌, ◌≤◌, ◌+◌, ◌-◌, ◌*◌, ◌<◌, ◌^◌};
ghost use Rattle.std.specs.Prelude.{min, [], ◌∷◌, ◌++◌, length, IfOk, OnOk, Ok};
ghost use Rattle.guest_memory.specs.rules.Bytes.{part};
ghost use Rattle.wasi_abi.specs.declared.layout.TheConstants.{IOVEC_BYTES};
ghost use Rattle.wasi_abi.specs.rules.Layouts.{u32_at};
ghost use Rattle.wasi_calls_rules.specs.Checks.{Buffer as GuestRange, buffers_at, is_inside};
ghost use Rattle.wasi_calls_rules.specs.Checks.{check_or};
ghost use Rattle.wasi_abi.specs.declared.errno.Errno.TheVariants.{Fault};
ghost use Rattle.wasi_calls_rules.specs.declared.limits.TheConstants.{IOVECS, MOVED_BYTES};
ghost use Rattle.wasi_calls.specs.Moves.{moved_buffers, total_len, AreInside};
ghost use Rattle.wasi_calls.specs.Steps.{GivesValue};

use crate::memory::in_range;
use arrayvec::ArrayVec;
use guest_memory::Memory;
use std::marker::Model;
use wasi_abi::{Errno, IOVEC_BYTES};
use wasi_calls_rules::limits::{IOVECS, MOVED_BYTES};

/// A range of a guest's memory.
#[derive(Clone, Copy, Debug, Default)]
pub struct Buffer {
    from: u32,
    len: u32,
}

impl Model for Buffer {
    ghost use Rattle.wasi_calls_rules.specs.Checks.{Buffer as GuestRange};

    ghost Value = { GuestRange };

    ghost view = { λ b. record { from = b.from; len = b.len } };

    ghost inverse = { λ b. record { from = b.from; len = b.len } };
}

impl Buffer {
    /// The one that the iovec at `iovecs + offset` names, or `Fault` where it reaches beyond
    /// memory.
    fn from_iovec(memory: &Memory, iovecs: u32, offset: u32) -> Result<Buffer, Errno>
        requires within { iovecs + (offset + IOVEC_BYTES) ≤ length memory.now.bytes }
        requires small { offset < 65536 }
        ensures gives { GivesValue (λ _. tt) result (check_or (is_inside memory.now.bytes (record {
          from = u32_at memory.now.bytes (iovecs + offset);
          len = u32_at memory.now.bytes ((iovecs + offset) + 4);
        })) Fault) }
        ensures is { IfOk result (λ b. b ≡ record {
          from = u32_at memory.now.bytes (iovecs + offset);
          len = u32_at memory.now.bytes ((iovecs + offset) + 4);
        }) }
        ensures inside { IfOk result (λ b. b.from + b.len ≤ length memory.now.bytes) }
    {
        let from = memory.load_u32(iovecs, offset).unwrap();
        let len = memory.load_u32(iovecs, offset + 4).unwrap();
        in_range(memory, from, len)?;
        Ok(Buffer { from, len })
    }

    /// Where it begins.
    pub fn from(&self) -> u32
        ensures { result ≡ self.now.from }
    {
        self.from
    }

    /// How many bytes it has.
    pub fn len(&self) -> u32
        ensures { result ≡ self.now.len }
    {
        self.len
    }

    /// Its bytes.
    pub fn bytes<'a>(&self, memory: &'a Memory) -> &'a [u8]
        requires { self.now.from + self.now.len ≤ length memory.now.bytes }
        ensures bytes { result.now ≡ part memory.now.bytes self.now.from self.now.len }
        ensures len { length result.now ≡ self.now.len }
    {
        memory.part(self.from, self.len).unwrap()
    }
}

/// So many buffers have room in the shorter of the two arrays.
pub const FEW_BUFFERS: usize = 16;

/// Room for the buffers of one read or write, as far as it moves their bytes. They take no memory
/// of their own.
#[derive(Drop)]
pub struct BufferRoom<const N: usize> {
    items: ArrayVec<Buffer, N>,
    /// How many bytes they have.
    len: usize,
}

impl<const N: usize> Model for BufferRoom<N> {
    ghost use Rattle.std.specs.Prelude.{◌≡◌, ◌≤◌, List};
    ghost use Rattle.wasi_calls_rules.specs.Checks.{Buffer as GuestRange};
    ghost use Rattle.wasi_calls_rules.specs.declared.limits.TheConstants.{MOVED_BYTES};
    ghost use Rattle.wasi_calls.specs.Moves.{total_len};

    ghost Value = { List GuestRange };

    ghost view = { λ b. b.items.items };

    ghost invariant = { λ b. (b.len ≡ total_len b.items.items) × (b.len ≤ MOVED_BYTES) };
}

impl<const N: usize> BufferRoom<N> {
    /// None.
    pub fn new() -> BufferRoom<N>
        ensures { result ≡ [] }
    {
        BufferRoom {
            items: ArrayVec::new(),
            len: 0,
        }
    }

    /// One more, or the front of it that there is room for.
    fn push(&mut self, buffer: Buffer)
        requires { length self.old < N }
        ensures { self.new ≡ self.old
            ++ record {
              from = buffer.from;
              len = min (MOVED_BYTES - total_len self.old) buffer.len;
            } ∷ [] }
    {
        let len = at_most(buffer.len, MOVED_BYTES - self.len);
        self.len += len as usize;
        self.items.push(Buffer {
            from: buffer.from,
            len,
        });
    }

    /// Takes those that so many iovecs name. `Inval` where they are too many, and `Fault` where
    /// their array or a buffer reaches beyond memory.
    pub fn read_iovecs(&mut self, memory: &Memory, iovecs: u32, count: u32) -> Result<(), Errno>
        requires none { self.old ≡ [] }
        requires room { min count IOVECS ≤ N }
        ensures gives { GivesValue (λ _. self.new) result
            (moved_buffers memory.now.bytes iovecs count) }
        ensures inside { OnOk result (AreInside memory.now.bytes self.new) }
    {
        if count as usize > IOVECS {
            return Err(Errno::Inval);
        }
        in_range(memory, iovecs, IOVEC_BYTES as u32 * count)?;
        for place in 0..count {
            self.push(Buffer::from_iovec(memory, iovecs, IOVEC_BYTES as u32 * place)?);
        }
        Ok(())
    }

    /// The buffers.
    pub fn buffers(&self) -> Buffers<'_>
        ensures { result ≡ self.now }
    {
        Buffers {
            items: self.items.as_slice(),
            len: self.len,
        }
    }
}

/// The buffers of one read or write, wherever they have room.
#[derive(Drop)]
pub struct Buffers<'a> {
    items: &'a [Buffer],
    /// How many bytes they have.
    len: usize,
}

impl<'a> Model for Buffers<'a> {
    ghost use Rattle.std.specs.Prelude.{◌≡◌, ◌≤◌, List};
    ghost use Rattle.wasi_calls_rules.specs.Checks.{Buffer as GuestRange};
    ghost use Rattle.wasi_calls_rules.specs.declared.limits.TheConstants.{MOVED_BYTES};
    ghost use Rattle.wasi_calls.specs.Moves.{total_len};

    ghost Value = { List GuestRange };

    ghost view = { λ b. b.items.now };

    ghost invariant = { λ b. (b.len ≡ total_len b.items.now) × (b.len ≤ MOVED_BYTES) };
}

impl<'a> Buffers<'a> {
    /// How many bytes they have.
    pub fn len(&self) -> usize
        ensures value { result ≡ total_len self.now }
        ensures few { result ≤ MOVED_BYTES }
    {
        self.len
    }

    /// In their order.
    pub fn as_slice(&self) -> &[Buffer]
        ensures items { result.now ≡ self.now }
        ensures few { total_len self.now ≤ MOVED_BYTES }
    {
        self.items
    }
}

/// A length, or the room where that is less.
fn at_most(len: u32, room: usize) -> u32
    requires { room ≤ MOVED_BYTES }
    ensures { result ≡ min room len }
{
    if len as usize <= room {
        len
    } else {
        room as u32
    }
}
