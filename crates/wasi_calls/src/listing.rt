//! Entries of a directory: `fd_readdir`.

ghost use Rattle.std.specs.Prelude.{◌≡◌, ◌+◌, ◌-◌, ◌≤◌, ◌++◌, take, drop, length};
ghost use Rattle.std.specs.Prelude.{OnOk, IfErr, Ok, Err};
ghost use Rattle.guest_memory.specs.rules.Bytes.{with_part};
ghost use Rattle.guest_memory.specs.rules.Memories.{with_bytes};
ghost use Rattle.wasi_abi.specs.rules.Layouts.{dirent_layout};
ghost use Rattle.wasi_calls_rules.specs.Checks.{Refuses};
ghost use Rattle.wasi_calls_rules.specs.Entries.{fd_readdir};
ghost use Rattle.wasi_calls.specs.Listings.{entries_behind};
ghost use Rattle.wasi_calls.specs.rules.Calls.{IsAsLarge};

use crate::host::WasiState;
use crate::memory::{front, in_range};
use file_tree::limits::NODES;
use guest_memory::Memory;
use wasi_abi::{DIRENT_BYTES, Dirent, Errno, Rights};

/// The arguments of `fd_readdir`.
#[derive(Clone, Copy)]
pub struct ListArguments {
    pub fd: u32,
    /// Where entries are put.
    pub buffer: u32,
    pub len: u32,
    /// How many entries of the directory are passed over.
    pub cookie: u64,
    /// Where it is put how many bytes they are.
    pub ret: u32,
}

/// Puts bytes after those that are there, as many as there is room for, and gives how many are
/// there then.
fn put(into: &mut [u8], done: usize, bytes: &[u8]) -> usize
    requires { done ≤ length into.old }
    ensures put { into.new ≡ with_part into.old done (take (length into.old - done) bytes.now) }
    ensures count { result ≡ done + length (take (length into.old - done) bytes.now) }
    ensures within { result ≤ length into.old }
{
    let front = front(bytes, into.len() - done);
    let end = done + front.len();
    into[done..end].copy_from_slice(front);
    end
}

/// Puts an entry and its name there in the same way.
fn put_entry(into: &mut [u8], done: usize, entry: Dirent, name: &[u8]) -> usize
    requires { done ≤ length into.old }
    ensures put { into.new ≡ with_part into.old done
        (take (length into.old - done) (dirent_layout entry ++ name.now)) }
    ensures count { result
        ≡ done + length (take (length into.old - done) (dirent_layout entry ++ name.now)) }
    ensures within { result ≤ length into.old }
{
    let mut head = [0; DIRENT_BYTES];
    entry.write(&mut head);
    let named = put(into, done, &head);
    put(into, named, name)
}

/// Puts the entries of a directory after so many there, as far as there is room, and gives how many
/// bytes they are. It takes no memory.
fn put_entries(host: &WasiState, directory: u64, cookie: u64, into: &mut [u8]) -> usize
    ensures put { into.new
        ≡ take (length into.old) (entries_behind host.now.host.files directory cookie)
        ++ drop result into.old }
    ensures count { result ≡ length
        (take (length into.old) (entries_behind host.now.host.files directory cookie)) }
    ensures within { result ≤ length into.old }
{
    let mut done = 0;
    let mut entry = host.entry(directory, cookie);
    for place in cookie..NODES as u64 {
        let Some(node) = entry else {
            return done;
        };
        let name = host.name(node);
        done = put_entry(into, done, host.dirent(place, node, name), name);
        if done == into.len() {
            return done;
        }
        entry = host.entry_after(directory, name);
    }
    done
}

/// `fd_readdir`.
pub fn list(host: &WasiState, memory: &mut Memory, arguments: ListArguments) -> Result<(), Errno>
    ensures done { OnOk result (fd_readdir arguments.fd arguments.buffer arguments.len
        arguments.cookie arguments.ret memory.old.bytes host.now.host
        ≡ Ok (record { memory = memory.new.bytes; host = host.now.host })) }
    ensures refused { IfErr result (λ e. fd_readdir arguments.fd arguments.buffer arguments.len
        arguments.cookie arguments.ret memory.old.bytes host.now.host ≡ Err (Refuses e)) }
    ensures kept { IfErr result (λ _. memory.new ≡ memory.old) }
    ensures large { IsAsLarge memory.old memory.new }
{
    let descriptor = host.descriptor(arguments.fd)?;
    let directory = host.a_directory(descriptor)?;
    descriptor.check_right(Rights::FD_READDIR)?;
    in_range(memory, arguments.buffer, arguments.len)?;
    in_range(memory, arguments.ret, 4)?;
    let count = list_entries(host, memory, directory, arguments);
    memory.store_u32(arguments.ret, 0, count).unwrap();
    Ok(())
}

/// Puts the entries of a directory into the buffer, and gives how many bytes they are.
fn list_entries(
    host: &WasiState,
    memory: &mut Memory,
    directory: u64,
    arguments: ListArguments,
) -> u32
    requires { arguments.buffer + arguments.len ≤ length memory.old.bytes }
    ensures put { memory.new ≡ with_bytes arguments.buffer (take arguments.len
        (entries_behind host.now.host.files directory arguments.cookie)) memory.old }
    ensures count { result ≡ length (take arguments.len
        (entries_behind host.now.host.files directory arguments.cookie)) }
    ensures large { IsAsLarge memory.old memory.new }
{
    let into = memory.part_mut(arguments.buffer, arguments.len);
    put_entries(host, directory, arguments.cookie, into) as u32
}
