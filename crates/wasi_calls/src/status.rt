//! What descriptors and files are: `fd_fdstat_get`, `fd_fdstat_set_flags`, `fd_filestat_get`,
//! `fd_prestat_get` and `fd_prestat_dir_name`.

ghost use Rattle.std.specs.Prelude.{◌≡◌, ◌+◌, ◌≤◌, length, OnOk, IfErr, Ok, Err};
ghost use Rattle.guest_memory.specs.rules.Memories.{with_bytes};
ghost use Rattle.wasi_abi.specs.declared.layout.TheConstants.{FILESTAT_BYTES};
ghost use Rattle.wasi_calls_rules.specs.Checks.{Bytes, Refuses};
ghost use Rattle.wasi_calls_rules.specs.Small.{fd_fdstat_get, fd_fdstat_set_flags};
ghost use Rattle.wasi_calls_rules.specs.Small.{fd_filestat_get, fd_prestat_get};
ghost use Rattle.wasi_calls_rules.specs.Small.{fd_prestat_dir_name, filestat_bytes_of};
ghost use Rattle.wasi_calls.specs.Views.{target_of};
ghost use Rattle.wasi_calls.specs.rules.Calls.{IsAsLarge};

use crate::descriptor::{Names, PREOPENED};
use crate::host::WasiState;
use crate::memory::in_range;
use guest_memory::Memory;
use wasi_abi::{
    DescriptorFlags, Errno, FDSTAT_BYTES, FILESTAT_BYTES, Fdstat, PRESTAT_BYTES, Prestat, Rights,
};

/// `fd_fdstat_get`.
pub fn get_fdstat(host: &WasiState, memory: &mut Memory, fd: u32, ret: u32) -> Result<(), Errno>
    ensures done { OnOk result (fd_fdstat_get fd ret memory.old.bytes host.now.host
        ≡ Ok (record { memory = memory.new.bytes; host = host.now.host })) }
    ensures refused { IfErr result (λ e. fd_fdstat_get fd ret memory.old.bytes host.now.host
        ≡ Err (Refuses e)) }
    ensures kept { IfErr result (λ _. memory.new ≡ memory.old) }
    ensures large { IsAsLarge memory.old memory.new }
{
    let descriptor = host.descriptor(fd)?;
    in_range(memory, ret, FDSTAT_BYTES as u32)?;
    let stat = Fdstat {
        file_type: host.file_type(descriptor.names()).number(),
        flags: descriptor.flags().number(),
        base: descriptor.base(),
        inheriting: descriptor.inheriting_rights(),
    };
    let mut bytes = [0; FDSTAT_BYTES];
    stat.write(&mut bytes);
    memory.write(ret, &bytes).unwrap();
    Ok(())
}

/// `fd_fdstat_set_flags`.
pub fn set_flags(host: &mut WasiState, fd: u32, flags: u32) -> Result<(), Errno>
    ensures done { (m : Bytes) → OnOk result (fd_fdstat_set_flags fd flags m host.old.host
        ≡ Ok (record { memory = m; host = host.new.host })) }
    ensures refused { (m : Bytes) → IfErr result (λ e. fd_fdstat_set_flags fd flags m host.old.host
        ≡ Err (Refuses e)) }
    ensures kept { IfErr result (λ _. host.new ≡ host.old) }
    ensures released { host.new.released ≡ host.old.released }
{
    let descriptor = host.descriptor(fd)?;
    descriptor.check_right(Rights::FD_FDSTAT_SET_FLAGS)?;
    let flags = DescriptorFlags::from_number(flags).ok_or(Errno::Inval)?;
    host.set_flags(fd, flags);
    Ok(())
}

/// `fd_filestat_get`.
pub fn get_filestat(host: &WasiState, memory: &mut Memory, fd: u32, ret: u32) -> Result<(), Errno>
    ensures done { OnOk result (fd_filestat_get fd ret memory.old.bytes host.now.host
        ≡ Ok (record { memory = memory.new.bytes; host = host.now.host })) }
    ensures refused { IfErr result (λ e. fd_filestat_get fd ret memory.old.bytes host.now.host
        ≡ Err (Refuses e)) }
    ensures kept { IfErr result (λ _. memory.new ≡ memory.old) }
    ensures large { IsAsLarge memory.old memory.new }
{
    let descriptor = host.descriptor(fd)?;
    descriptor.check_right(Rights::FD_FILESTAT_GET)?;
    in_range(memory, ret, FILESTAT_BYTES as u32)?;
    put_filestat(host, memory, descriptor.names(), ret);
    Ok(())
}

/// Puts what is told of what is named where there is room.
pub fn put_filestat(host: &WasiState, memory: &mut Memory, names: Names, ret: u32)
    requires { ret + FILESTAT_BYTES ≤ length memory.old.bytes }
    ensures put { memory.new
        ≡ with_bytes ret (filestat_bytes_of host.now.host (target_of names)) memory.old }
    ensures large { IsAsLarge memory.old memory.new }
{
    let mut bytes = [0; FILESTAT_BYTES];
    host.filestat(names).write(&mut bytes);
    memory.write(ret, &bytes).unwrap();
}

/// `fd_prestat_get`.
pub fn get_prestat(host: &WasiState, memory: &mut Memory, fd: u32, ret: u32) -> Result<(), Errno>
    ensures done { OnOk result (fd_prestat_get fd ret memory.old.bytes host.now.host
        ≡ Ok (record { memory = memory.new.bytes; host = host.now.host })) }
    ensures refused { IfErr result (λ e. fd_prestat_get fd ret memory.old.bytes host.now.host
        ≡ Err (Refuses e)) }
    ensures kept { IfErr result (λ _. memory.new ≡ memory.old) }
    ensures large { IsAsLarge memory.old memory.new }
{
    host.descriptor(fd)?;
    in_range(memory, ret, PRESTAT_BYTES as u32)?;
    if fd != PREOPENED {
        return Err(Errno::Badf);
    }
    let mut bytes = [0; PRESTAT_BYTES];
    Prestat { name_length: 1 }.write(&mut bytes);
    memory.write(ret, &bytes).unwrap();
    Ok(())
}

/// `fd_prestat_dir_name`.
pub fn get_prestat_name(
    host: &WasiState,
    memory: &mut Memory,
    fd: u32,
    path: u32,
    len: u32,
) -> Result<(), Errno>
    ensures done { OnOk result (fd_prestat_dir_name fd path len memory.old.bytes host.now.host
        ≡ Ok (record { memory = memory.new.bytes; host = host.now.host })) }
    ensures refused { IfErr result (λ e. fd_prestat_dir_name fd path len memory.old.bytes
        host.now.host ≡ Err (Refuses e)) }
    ensures kept { IfErr result (λ _. memory.new ≡ memory.old) }
    ensures large { IsAsLarge memory.old memory.new }
{
    host.descriptor(fd)?;
    in_range(memory, path, 1)?;
    if fd != PREOPENED {
        return Err(Errno::Badf);
    }
    if len == 0 {
        return Err(Errno::Nametoolong);
    }
    memory.write(path, b"/").unwrap();
    Ok(())
}
