//! What holds of values by their types. The functions do nothing: what they ensure is the law.

ghost use Rattle.std.specs.Prelude.{◌<◌, ◌^◌};
ghost use Rattle.std.specs.List.{AllByRecursion};
ghost use Rattle.guest_memory.specs.laws.PageLimits.{PageLimitNumbers};
ghost use Rattle.guest_memory.specs.rules.Bytes.{IsByte};
ghost use Rattle.guest_memory.specs.rules.Memories.{IsWithinLimit};

use crate::Memory;

/// A `u8` is a number below 256.
pub fn are_bytes(bytes: &[u8])
    ensures { AllByRecursion IsByte bytes.now }
{
    let _ = bytes;
}

/// A `u64` is a number of 64 bits.
pub fn has_64_bits(number: u64)
    ensures { number < 2 ^ 64 }
{
    let _ = number;
}

/// A memory is whole pages of bytes, within its limit.
pub fn memories_are_of_bytes(memory: &Memory)
    ensures shape { IsWithinLimit memory.now }
    ensures bytes { AllByRecursion IsByte memory.now.bytes }
{
    let _ = memory.len();
    are_bytes(memory.bytes());
}

/// How large a page is, and how many there may be.
pub fn page_limits_are()
    ensures { PageLimitNumbers }
{}
