//! `fd_read` and `fd_pread`.

ghost use Rattle.std.specs.Prelude.{◌≡◌, ◌≤◌, [], min, option_copied, IfErr, OnOk, Ok, Err};
ghost use Rattle.wasi_calls_rules.specs.Checks.{Refuses};
ghost use Rattle.wasi_calls_rules.specs.Moving.{fd_read, fd_pread};
ghost use Rattle.wasi_calls_rules.specs.declared.limits.TheConstants.{IOVECS};
ghost use Rattle.wasi_calls.specs.rules.Calls.{IsAsLarge};
ghost use Rattle.wasi_calls.specs.Steps.{StopsStep};

use crate::buffers::{BufferRoom, FEW_BUFFERS};
use crate::host::WasiState;
use crate::moves::{MoveArguments, PlacedArguments, check, check_placed};
use crate::stop::CallStop;
use guest_memory::Memory;
use wasi_abi::{Answer, Errno, Rights};
use wasi_calls_rules::limits::IOVECS;

/// `fd_read`, with the line that it asked for before, where one is there. Where it is refused, asks
/// or lacks memory, nothing has changed.
pub fn read(
    host: &mut WasiState,
    memory: &mut Memory,
    arguments: MoveArguments,
    answer: Option<&Answer>,
) -> Result<(), CallStop>
    ensures done { OnOk result (fd_read arguments.fd arguments.iovecs arguments.count
        arguments.ret (option_copied answer.entry) memory.old.bytes host.old.host
        ≡ Ok (record { memory = memory.new.bytes; host = host.new.host })) }
    ensures stopped { IfErr result (λ why. StopsStep why (fd_read arguments.fd arguments.iovecs
        arguments.count arguments.ret (option_copied answer.entry) memory.old.bytes
        host.old.host)) }
    ensures memory_kept { IfErr result (λ _. memory.new ≡ memory.old) }
    ensures host_kept { IfErr result (λ _. host.new ≡ host.old) }
    ensures released { host.new.released ≡ host.old.released }
    ensures large { IsAsLarge memory.old memory.new }
{
    if arguments.count as usize <= FEW_BUFFERS {
        let mut room = BufferRoom::<FEW_BUFFERS>::new();
        return read_within(host, memory, arguments, answer, &mut room);
    }
    let mut room = BufferRoom::<IOVECS>::new();
    read_within(host, memory, arguments, answer, &mut room)
}

/// The same, with room for the buffers.
fn read_within<const N: usize>(
    host: &mut WasiState,
    memory: &mut Memory,
    arguments: MoveArguments,
    answer: Option<&Answer>,
    room: &mut BufferRoom<N>,
) -> Result<(), CallStop>
    requires none { room.old ≡ [] }
    requires room { min arguments.count IOVECS ≤ N }
    ensures done { OnOk result (fd_read arguments.fd arguments.iovecs arguments.count
        arguments.ret (option_copied answer.entry) memory.old.bytes host.old.host
        ≡ Ok (record { memory = memory.new.bytes; host = host.new.host })) }
    ensures stopped { IfErr result (λ why. StopsStep why (fd_read arguments.fd arguments.iovecs
        arguments.count arguments.ret (option_copied answer.entry) memory.old.bytes
        host.old.host)) }
    ensures memory_kept { IfErr result (λ _. memory.new ≡ memory.old) }
    ensures host_kept { IfErr result (λ _. host.new ≡ host.old) }
    ensures released { host.new.released ≡ host.old.released }
    ensures large { IsAsLarge memory.old memory.new }
{
    check(host, memory, arguments, Rights::FD_READ, room)?;
    let moved = host.take(arguments.fd, memory, &room.buffers(), answer)?;
    memory.store_u32(arguments.ret, 0, moved as u32).unwrap();
    Ok(())
}

/// `fd_pread`. Where it is refused, nothing has changed.
pub fn read_at(
    host: &WasiState,
    memory: &mut Memory,
    arguments: PlacedArguments,
) -> Result<(), Errno>
    ensures done { OnOk result (fd_pread arguments.fd arguments.iovecs arguments.count
        arguments.offset arguments.ret memory.old.bytes host.now.host
        ≡ Ok (record { memory = memory.new.bytes; host = host.now.host })) }
    ensures refused { IfErr result (λ e. fd_pread arguments.fd arguments.iovecs arguments.count
        arguments.offset arguments.ret memory.old.bytes host.now.host ≡ Err (Refuses e)) }
    ensures kept { IfErr result (λ _. memory.new ≡ memory.old) }
    ensures large { IsAsLarge memory.old memory.new }
{
    if arguments.count as usize <= FEW_BUFFERS {
        let mut room = BufferRoom::<FEW_BUFFERS>::new();
        return read_at_within(host, memory, arguments, &mut room);
    }
    let mut room = BufferRoom::<IOVECS>::new();
    read_at_within(host, memory, arguments, &mut room)
}

/// The same, with room for the buffers.
fn read_at_within<const N: usize>(
    host: &WasiState,
    memory: &mut Memory,
    arguments: PlacedArguments,
    room: &mut BufferRoom<N>,
) -> Result<(), Errno>
    requires none { room.old ≡ [] }
    requires room { min arguments.count IOVECS ≤ N }
    ensures done { OnOk result (fd_pread arguments.fd arguments.iovecs arguments.count
        arguments.offset arguments.ret memory.old.bytes host.now.host
        ≡ Ok (record { memory = memory.new.bytes; host = host.now.host })) }
    ensures refused { IfErr result (λ e. fd_pread arguments.fd arguments.iovecs arguments.count
        arguments.offset arguments.ret memory.old.bytes host.now.host ≡ Err (Refuses e)) }
    ensures kept { IfErr result (λ _. memory.new ≡ memory.old) }
    ensures large { IsAsLarge memory.old memory.new }
{
    let node = check_placed(host, memory, arguments, Rights::FD_READ, room)?;
    let moved = host.read_file(node, arguments.offset, memory, &room.buffers());
    memory.store_u32(arguments.ret, 0, moved as u32).unwrap();
    Ok(())
}
