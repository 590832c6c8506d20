//! `fd_write` and `fd_pwrite`.

ghost use Rattle.std.specs.Prelude.{◌≡◌, ◌+◌, ◌≤◌, [], min, length, IfErr, OnOk, Ok, Err};
ghost use Rattle.wasi_calls_rules.specs.WasiStates.{WasiState as TheWasiState};
ghost use Rattle.wasi_calls_rules.specs.Checks.{Done, Halt};
ghost use Rattle.wasi_calls_rules.specs.Lines.{lines_ended};
ghost use Rattle.wasi_calls_rules.specs.Moving.{fd_write, fd_pwrite};
ghost use Rattle.wasi_calls_rules.specs.declared.limits.TheConstants.{IOVECS, MOVED_BYTES};
ghost use Rattle.wasi_calls.specs.rules.Held.{ShowsWasiState};
ghost use Rattle.wasi_calls.specs.rules.Calls.{IsAsLarge};
ghost use Rattle.wasi_calls.specs.Steps.{StopsStep};

use crate::buffers::{BufferRoom, FEW_BUFFERS};
use crate::count::count_begun;
use crate::descriptor::Names;
use crate::host::WasiState;
use crate::moves::{MoveArguments, PlacedArguments, check, check_placed};
use crate::stop::CallStop;
use crate::streams::output_stream;
use guest_memory::Memory;
use std::alloc::Global;
use wasi_abi::Rights;
use wasi_calls_rules::limits::IOVECS;

/// How many lines such a write would begin: none, where it is refused or goes to a file.
pub fn lines_begun(host: &WasiState, memory: &Memory, arguments: MoveArguments) -> usize
    ensures count { (h : TheWasiState) (done : Done) → ShowsWasiState host.now h
        → fd_write arguments.fd arguments.iovecs arguments.count arguments.ret memory.now.bytes h
        ≡ Ok done
        → length (lines_ended done.host).lines ≡ length (lines_ended h).lines + result }
    ensures none { (h : TheWasiState) (halt : Halt) → ShowsWasiState host.now h
        → fd_write arguments.fd arguments.iovecs arguments.count arguments.ret memory.now.bytes h
        ≡ Err halt → result ≡ 0 }
    ensures few { result ≤ MOVED_BYTES }
{
    if arguments.count as usize <= FEW_BUFFERS {
        let mut room = BufferRoom::<FEW_BUFFERS>::new();
        return lines_begun_within(host, memory, arguments, &mut room);
    }
    let mut room = BufferRoom::<IOVECS>::new();
    lines_begun_within(host, memory, arguments, &mut room)
}

/// The same, with room for the buffers.
fn lines_begun_within<const N: usize>(
    host: &WasiState,
    memory: &Memory,
    arguments: MoveArguments,
    room: &mut BufferRoom<N>,
) -> usize
    requires none { room.old ≡ [] }
    requires room { min arguments.count IOVECS ≤ N }
    ensures count { (h : TheWasiState) (done : Done) → ShowsWasiState host.now h
        → fd_write arguments.fd arguments.iovecs arguments.count arguments.ret memory.now.bytes h
        ≡ Ok done
        → length (lines_ended done.host).lines ≡ length (lines_ended h).lines + result }
    ensures none { (h : TheWasiState) (halt : Halt) → ShowsWasiState host.now h
        → fd_write arguments.fd arguments.iovecs arguments.count arguments.ret memory.now.bytes h
        ≡ Err halt → result ≡ 0 }
    ensures few { result ≤ MOVED_BYTES }
{
    let Ok(()) = check(host, memory, arguments, Rights::FD_WRITE, room) else {
        return 0;
    };
    match host.descriptor(arguments.fd).unwrap().names() {
        Names::Stream(number) => {
            let stream = output_stream(number);
            count_begun(memory, &room.buffers(), host.unfinished_line(stream).len())
        }
        Names::Node(_) => 0,
    }
}

/// `fd_write`. Where it is refused or lacks memory, nothing has changed.
pub fn write(
    alloc: Global,
    host: &mut WasiState,
    memory: &mut Memory,
    arguments: MoveArguments,
) -> Result<(), CallStop>
    ensures done { OnOk result (fd_write arguments.fd arguments.iovecs arguments.count
        arguments.ret memory.old.bytes host.old.host
        ≡ Ok (record { memory = memory.new.bytes; host = host.new.host })) }
    ensures stopped { IfErr result (λ why. StopsStep why (fd_write arguments.fd arguments.iovecs
        arguments.count arguments.ret memory.old.bytes host.old.host)) }
    ensures memory_kept { IfErr result (λ _. memory.new ≡ memory.old) }
    ensures host_kept { IfErr result (λ _. host.new ≡ host.old) }
    ensures released { host.new.released ≡ host.old.released }
    ensures large { IsAsLarge memory.old memory.new }
{
    if arguments.count as usize <= FEW_BUFFERS {
        let mut room = BufferRoom::<FEW_BUFFERS>::new();
        return write_within(alloc, host, memory, arguments, &mut room);
    }
    let mut room = BufferRoom::<IOVECS>::new();
    write_within(alloc, host, memory, arguments, &mut room)
}

/// The same, with room for the buffers.
fn write_within<const N: usize>(
    alloc: Global,
    host: &mut WasiState,
    memory: &mut Memory,
    arguments: MoveArguments,
    room: &mut BufferRoom<N>,
) -> Result<(), CallStop>
    requires none { room.old ≡ [] }
    requires room { min arguments.count IOVECS ≤ N }
    ensures done { OnOk result (fd_write arguments.fd arguments.iovecs arguments.count
        arguments.ret memory.old.bytes host.old.host
        ≡ Ok (record { memory = memory.new.bytes; host = host.new.host })) }
    ensures stopped { IfErr result (λ why. StopsStep why (fd_write arguments.fd arguments.iovecs
        arguments.count arguments.ret memory.old.bytes host.old.host)) }
    ensures memory_kept { IfErr result (λ _. memory.new ≡ memory.old) }
    ensures host_kept { IfErr result (λ _. host.new ≡ host.old) }
    ensures released { host.new.released ≡ host.old.released }
    ensures large { IsAsLarge memory.old memory.new }
{
    check(host, memory, arguments, Rights::FD_WRITE, room)?;
    let buffers = room.buffers();
    host.put(alloc, arguments.fd, memory, &buffers)?;
    memory
        .store_u32(arguments.ret, 0, buffers.len() as u32)
        .unwrap();
    Ok(())
}

/// `fd_pwrite`. Where it is refused or lacks memory, nothing has changed.
pub fn write_at(
    host: &mut WasiState,
    memory: &mut Memory,
    arguments: PlacedArguments,
) -> Result<(), CallStop>
    ensures done { OnOk result (fd_pwrite arguments.fd arguments.iovecs arguments.count
        arguments.offset arguments.ret memory.old.bytes host.old.host
        ≡ Ok (record { memory = memory.new.bytes; host = host.new.host })) }
    ensures stopped { IfErr result (λ why. StopsStep why (fd_pwrite arguments.fd arguments.iovecs
        arguments.count arguments.offset arguments.ret memory.old.bytes host.old.host)) }
    ensures memory_kept { IfErr result (λ _. memory.new ≡ memory.old) }
    ensures host_kept { IfErr result (λ _. host.new ≡ host.old) }
    ensures released { host.new.released ≡ host.old.released }
    ensures large { IsAsLarge memory.old memory.new }
{
    if arguments.count as usize <= FEW_BUFFERS {
        let mut room = BufferRoom::<FEW_BUFFERS>::new();
        return write_at_within(host, memory, arguments, &mut room);
    }
    let mut room = BufferRoom::<IOVECS>::new();
    write_at_within(host, memory, arguments, &mut room)
}

/// The same, with room for the buffers.
fn write_at_within<const N: usize>(
    host: &mut WasiState,
    memory: &mut Memory,
    arguments: PlacedArguments,
    room: &mut BufferRoom<N>,
) -> Result<(), CallStop>
    requires none { room.old ≡ [] }
    requires room { min arguments.count IOVECS ≤ N }
    ensures done { OnOk result (fd_pwrite arguments.fd arguments.iovecs arguments.count
        arguments.offset arguments.ret memory.old.bytes host.old.host
        ≡ Ok (record { memory = memory.new.bytes; host = host.new.host })) }
    ensures stopped { IfErr result (λ why. StopsStep why (fd_pwrite arguments.fd arguments.iovecs
        arguments.count arguments.offset arguments.ret memory.old.bytes host.old.host)) }
    ensures memory_kept { IfErr result (λ _. memory.new ≡ memory.old) }
    ensures host_kept { IfErr result (λ _. host.new ≡ host.old) }
    ensures released { host.new.released ≡ host.old.released }
    ensures large { IsAsLarge memory.old memory.new }
{
    let node = check_placed(host, memory, arguments, Rights::FD_WRITE, room)?;
    let buffers = room.buffers();
    host.write_file(node, arguments.offset, memory, &buffers)?;
    memory
        .store_u32(arguments.ret, 0, buffers.len() as u32)
        .unwrap();
    Ok(())
}
