//! Places in files: `fd_seek` and `fd_tell`.

ghost use Rattle.std.specs.Prelude.{◌≡◌, ◌<◌, ◌^◌, pos, ◌+ℤ◌, OnOk, IfErr, IfOk, Ok, Err};
ghost use Rattle.std.specs.Int.{w64, cast_signed};
ghost use Rattle.wasi_calls_rules.specs.Checks.{Refuses};
ghost use Rattle.wasi_calls_rules.specs.Small.{fd_seek, fd_tell, file_offset, seek_base};
ghost use Rattle.wasi_calls_rules.specs.WasiStates.{Node, IsDescriptor};
ghost use Rattle.wasi_abi.specs.rules.Numbers.{whence_number};
ghost use Rattle.wasi_calls.specs.Steps.{GivesValue};
ghost use Rattle.wasi_calls.specs.rules.Calls.{IsAsLarge};

use crate::descriptor::{Descriptor, OFFSETS_END};
use crate::host::WasiState;
use crate::memory::in_range;
use guest_memory::Memory;
use wasi_abi::{Errno, Rights, Whence};

/// The arguments of `fd_seek`.
#[derive(Clone, Copy)]
pub struct SeekArguments {
    pub fd: u32,
    /// Two's complement.
    pub delta: u64,
    /// Where it counts from: 0 from the start, 1 from the offset, 2 from the end.
    pub whence: u32,
    /// Where the new offset is put.
    pub ret: u32,
}

/// A place so far from another one, or `Inval` where it is none. Places are below 2^63.
fn offset_by(base: u64, delta: u64) -> Result<u64, Errno>
    requires { base < 2 ^ 63 }
    ensures gives { GivesValue (λ x. x) result (file_offset (pos base +ℤ cast_signed w64 delta)) }
    ensures small { IfOk result (λ offset. offset < 2 ^ 63) }
{
    let offset = if delta < OFFSETS_END {
        base + delta
    } else {
        // The way back has two's complement, and is at most 2^63.
        base.checked_sub(u64::MAX - delta + 1).ok_or(Errno::Inval)?
    };
    if offset < OFFSETS_END {
        Ok(offset)
    } else {
        Err(Errno::Inval)
    }
}

/// The place that an offset counts from, in a file that is open.
fn base(host: &WasiState, descriptor: &Descriptor, node: u64, whence: Whence) -> u64
    requires named { descriptor.now.target ≡ Node node }
    requires is { IsDescriptor host.now.host.files descriptor.now }
    ensures base { result ≡ seek_base host.now.host descriptor.now (whence_number whence) }
    ensures small { result < 2 ^ 63 }
{
    match whence {
        Whence::Set => 0,
        Whence::Current => descriptor.offset(),
        Whence::End => host.size(node),
    }
}

/// `fd_seek`.
pub fn seek(
    host: &mut WasiState,
    memory: &mut Memory,
    arguments: SeekArguments,
) -> Result<(), Errno>
    ensures done { OnOk result (fd_seek arguments.fd arguments.delta arguments.whence arguments.ret
        memory.old.bytes host.old.host
        ≡ Ok (record { memory = memory.new.bytes; host = host.new.host })) }
    ensures refused { IfErr result (λ e. fd_seek arguments.fd arguments.delta arguments.whence
        arguments.ret memory.old.bytes host.old.host ≡ Err (Refuses e)) }
    ensures memory_kept { IfErr result (λ _. memory.new ≡ memory.old) }
    ensures host_kept { IfErr result (λ _. host.new ≡ host.old) }
    ensures released { host.new.released ≡ host.old.released }
    ensures large { IsAsLarge memory.old memory.new }
{
    let descriptor = host.descriptor(arguments.fd)?;
    let node = host.a_file(descriptor)?;
    descriptor.check_right(Rights::FD_SEEK)?;
    let whence = Whence::from_number(arguments.whence).ok_or(Errno::Inval)?;
    in_range(memory, arguments.ret, 8)?;
    let offset = offset_by(base(host, descriptor, node, whence), arguments.delta)?;
    memory.store_u64(arguments.ret, 0, offset).unwrap();
    host.move_to(arguments.fd, offset);
    Ok(())
}

/// `fd_tell`.
pub fn tell(host: &WasiState, memory: &mut Memory, fd: u32, ret: u32) -> Result<(), Errno>
    ensures done { OnOk result (fd_tell fd ret memory.old.bytes host.now.host
        ≡ Ok (record { memory = memory.new.bytes; host = host.now.host })) }
    ensures refused { IfErr result (λ e. fd_tell fd ret memory.old.bytes host.now.host
        ≡ Err (Refuses e)) }
    ensures kept { IfErr result (λ _. memory.new ≡ memory.old) }
    ensures large { IsAsLarge memory.old memory.new }
{
    let descriptor = host.descriptor(fd)?;
    host.a_file(descriptor)?;
    descriptor.check_right(Rights::FD_TELL)?;
    in_range(memory, ret, 8)?;
    memory.store_u64(ret, 0, descriptor.offset()).unwrap();
    Ok(())
}
