//! What the calls that move bytes have in common: their arguments and their checks.

ghost use Rattle.std.specs.Prelude.{◌≡◌, ◌≤◌, ◌^◌, min, [], IfOk, OnOk, IfErr, Err, false};
ghost use Rattle.wasi_abi.specs.Bits.{bit_of};
ghost use Rattle.wasi_abi.specs.rules.Numbers.{rights_number};
ghost use Rattle.wasi_calls_rules.specs.WasiStates.{Node, IsThere};
ghost use Rattle.wasi_calls_rules.specs.Checks.{Refuses};
ghost use Rattle.file_tree.specs.rules.Files.{is_directory};
ghost use Rattle.wasi_calls_rules.specs.declared.limits.TheConstants.{IOVECS};
ghost use Rattle.wasi_calls.specs.Moves.{wanted, wanted_at, PassesChecks, AtNode};

use crate::buffers::BufferRoom;
use crate::host::WasiState;
use crate::memory::in_range;
use guest_memory::Memory;
use wasi_abi::{Errno, Rights};

/// The arguments of `fd_read` and `fd_write`.
#[derive(Clone, Copy)]
pub struct MoveArguments {
    pub fd: u32,
    /// Where the iovecs lie, and how many they are.
    pub iovecs: u32,
    pub count: u32,
    /// Where the number of bytes that were moved is put.
    pub ret: u32,
}

/// The arguments of `fd_pread` and `fd_pwrite`.
#[derive(Clone, Copy)]
pub struct PlacedArguments {
    pub fd: u32,
    /// Where the iovecs lie, and how many they are.
    pub iovecs: u32,
    pub count: u32,
    /// The place in the file.
    pub offset: u64,
    /// Where the number of bytes that were moved is put.
    pub ret: u32,
}

/// Makes all checks of `fd_read` or `fd_write`, which needs this right, and gives its buffers. It
/// takes no memory.
pub fn check<const N: usize>(
    host: &WasiState,
    memory: &Memory,
    arguments: MoveArguments,
    right: Rights,
    buffers: &mut BufferRoom<N>,
) -> Result<(), Errno>
    requires none { buffers.old ≡ [] }
    requires room { min arguments.count IOVECS ≤ N }
    requires one { rights_number right ≡ 2 ^ bit_of (rights_number right) }
    ensures passed { OnOk result (PassesChecks memory.now.bytes host.now.host arguments.fd
        arguments.ret (wanted (bit_of (rights_number right)) arguments.fd arguments.iovecs
        arguments.count arguments.ret memory.now.bytes host.now.host) buffers.new) }
    ensures refused { IfErr result (λ e. wanted (bit_of (rights_number right)) arguments.fd
        arguments.iovecs arguments.count arguments.ret memory.now.bytes host.now.host
        ≡ Err (Refuses e)) }
{
    let descriptor = host.descriptor(arguments.fd)?;
    host.no_directory(descriptor)?;
    descriptor.check_right(right)?;
    buffers.read_iovecs(memory, arguments.iovecs, arguments.count)?;
    in_range(memory, arguments.ret, 4)
}

/// Makes all checks of `fd_pread` or `fd_pwrite`, which needs this right beside `fd_seek`, and
/// gives its buffers. It returns the file. It takes no memory.
pub fn check_placed<const N: usize>(
    host: &WasiState,
    memory: &Memory,
    arguments: PlacedArguments,
    right: Rights,
    buffers: &mut BufferRoom<N>,
) -> Result<u64, Errno>
    requires none { buffers.old ≡ [] }
    requires room { min arguments.count IOVECS ≤ N }
    requires one { rights_number right ≡ 2 ^ bit_of (rights_number right) }
    ensures passed { OnOk result (PassesChecks memory.now.bytes host.now.host arguments.fd
        arguments.ret (wanted_at (bit_of (rights_number right)) arguments.fd arguments.iovecs
        arguments.count arguments.ret memory.now.bytes host.now.host) buffers.new) }
    ensures file { IfOk result (λ node. AtNode host.now.host arguments.fd node) }
    ensures refused { IfErr result (λ e. wanted_at (bit_of (rights_number right)) arguments.fd
        arguments.iovecs arguments.count arguments.ret memory.now.bytes host.now.host
        ≡ Err (Refuses e)) }
{
    let descriptor = host.descriptor(arguments.fd)?;
    let node = host.a_file(descriptor)?;
    descriptor.check_right(right)?;
    descriptor.check_right(Rights::FD_SEEK)?;
    buffers.read_iovecs(memory, arguments.iovecs, arguments.count)?;
    in_range(memory, arguments.ret, 4)?;
    Ok(node)
}
