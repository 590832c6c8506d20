//! What changes descriptors and files and moves no bytes: `fd_close`, `fd_sync`, `fd_datasync` and
//! `fd_filestat_set_size`.

ghost use Rattle.std.specs.Prelude.{◌≡◌, ◌^◌, OnOk, IfErr, Ok, Err};
ghost use Rattle.wasi_abi.specs.Bits.{bit_of};
ghost use Rattle.wasi_abi.specs.rules.Numbers.{rights_number};
ghost use Rattle.wasi_calls_rules.specs.Checks.{Bytes, Refuses};
ghost use Rattle.wasi_calls_rules.specs.Small.{fd_close, fd_syncs, fd_filestat_set_size};
ghost use Rattle.wasi_calls.specs.Steps.{StopsStep};

use crate::descriptor::PREOPENED;
use crate::host::WasiState;
use crate::stop::CallStop;
use wasi_abi::{Errno, Rights};

/// `fd_close`.
pub fn close(host: &mut WasiState, fd: u32) -> Result<(), Errno>
    ensures done { (m : Bytes) → OnOk result (fd_close fd m host.old.host
        ≡ Ok (record { memory = m; host = host.new.host })) }
    ensures refused { (m : Bytes) → IfErr result (λ e. fd_close fd m host.old.host
        ≡ Err (Refuses e)) }
    ensures kept { IfErr result (λ _. host.new ≡ host.old) }
    ensures released { host.new.released ≡ host.old.released }
{
    host.descriptor(fd)?;
    if fd == PREOPENED {
        return Err(Errno::Notcapable);
    }
    host.close(fd);
    Ok(())
}

/// `fd_sync` and `fd_datasync`, each with its right.
pub fn sync(host: &WasiState, fd: u32, right: Rights) -> Result<(), Errno>
    requires one { rights_number right ≡ 2 ^ bit_of (rights_number right) }
    ensures done { (m : Bytes) → OnOk result (fd_syncs (bit_of (rights_number right)) fd m
        host.now.host ≡ Ok (record { memory = m; host = host.now.host })) }
    ensures refused { (m : Bytes) → IfErr result (λ e. fd_syncs (bit_of (rights_number right)) fd m
        host.now.host ≡ Err (Refuses e)) }
{
    host.descriptor(fd)?.check_right(right)
}

/// `fd_filestat_set_size`.
pub fn set_size(host: &mut WasiState, fd: u32, size: u64) -> Result<(), CallStop>
    ensures done { (m : Bytes) → OnOk result (fd_filestat_set_size fd size m host.old.host
        ≡ Ok (record { memory = m; host = host.new.host })) }
    ensures stopped { (m : Bytes) → IfErr result (λ why.
        StopsStep why (fd_filestat_set_size fd size m host.old.host)) }
    ensures kept { IfErr result (λ _. host.new ≡ host.old) }
    ensures released { host.new.released ≡ host.old.released }
{
    let descriptor = host.descriptor(fd)?;
    let node = host.a_file(descriptor)?;
    descriptor.check_right(Rights::FD_FILESTAT_SET_SIZE)?;
    host.check_room(node, size)?;
    host.resize(node, size)?;
    Ok(())
}
