//! Reading a guest's memory.

ghost use Rattle.std.specs.Prelude.{◌≡◌, ◌≤◌, ◌+◌, ◌^◌, IfOk, length, take};
ghost use Rattle.wasi_calls_rules.specs.Checks.{in_memory};
ghost use Rattle.wasi_calls.specs.Steps.{GivesValue};

use guest_memory::Memory;
use wasi_abi::Errno;

/// A range is within memory, or `Fault`.
pub fn in_range(memory: &Memory, from: u32, len: u32) -> Result<(), Errno>
    ensures gives { GivesValue (λ x. x) result (in_memory memory.now.bytes from len) }
    ensures room { IfOk result (λ _. from + len ≤ length memory.now.bytes) }
    ensures small { length memory.now.bytes ≤ 2 ^ 32 }
{
    if from as usize + len as usize <= memory.len() {
        Ok(())
    } else {
        Err(Errno::Fault)
    }
}

/// The front of a buffer that there is room for.
pub fn front(buffer: &[u8], room: usize) -> &[u8]
    ensures { result.now ≡ take room buffer.now }
{
    if buffer.len() <= room {
        buffer
    } else {
        &buffer[..room]
    }
}
