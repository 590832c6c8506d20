//! The calls on names in directories: `path_filestat_get`, `path_create_directory`,
//! `path_remove_directory` and `path_unlink_file`.

ghost use Rattle.std.specs.Prelude.{◌≡◌, OnOk, IfErr, Ok, Err};
ghost use Rattle.wasi_calls_rules.specs.Checks.{Bytes, Refuses};
ghost use Rattle.wasi_calls_rules.specs.Entries.{path_create_directory, path_filestat_get};
ghost use Rattle.wasi_calls_rules.specs.Entries.{path_remove_directory, path_unlink_file};
ghost use Rattle.wasi_calls.specs.Entries.{directory_made, directory_removed, file_unlinked};
ghost use Rattle.wasi_calls.specs.Places.{IsWellPlaced, walk_end_of};
ghost use Rattle.wasi_calls.specs.Steps.{StopsStep};
ghost use Rattle.wasi_calls.specs.rules.Calls.{IsAsLarge};

use crate::descriptor::Names;
use crate::host::WasiState;
use crate::memory::in_range;
use crate::paths::{PathEnd, PathNames, path_bytes, place_of_names, place_of_path};
use crate::status::put_filestat;
use crate::stop::CallStop;
use file_tree::NodeType;
use guest_memory::Memory;
use std::alloc::Global;
use wasi_abi::{ALL_LOOKUP_FLAGS, Errno, FILESTAT_BYTES, Rights};

/// The arguments of `path_filestat_get`.
#[derive(Clone, Copy)]
pub struct PathFilestatArguments {
    pub fd: u32,
    pub flags: u32,
    pub path: u32,
    pub len: u32,
    /// Where the answer is put.
    pub ret: u32,
}

/// `path_filestat_get`.
pub fn get_path_filestat(
    host: &WasiState,
    memory: &mut Memory,
    arguments: PathFilestatArguments,
) -> Result<(), Errno>
    ensures done { OnOk result (path_filestat_get arguments.fd arguments.flags arguments.path
        arguments.len arguments.ret memory.old.bytes host.now.host
        ≡ Ok (record { memory = memory.new.bytes; host = host.now.host })) }
    ensures refused { IfErr result (λ e. path_filestat_get arguments.fd arguments.flags
        arguments.path arguments.len arguments.ret memory.old.bytes host.now.host
        ≡ Err (Refuses e)) }
    ensures kept { IfErr result (λ _. memory.new ≡ memory.old) }
    ensures large { IsAsLarge memory.old memory.new }
{
    let descriptor = host.descriptor(arguments.fd)?;
    host.a_directory(descriptor)?;
    descriptor.check_right(Rights::PATH_FILESTAT_GET)?;
    if arguments.flags > ALL_LOOKUP_FLAGS {
        return Err(Errno::Inval);
    }
    let bytes = path_bytes(memory, arguments.path, arguments.len)?;
    in_range(memory, arguments.ret, FILESTAT_BYTES as u32)?;
    let names = PathNames::of(bytes)?;
    let place = place_of_names(host, descriptor, names)?;
    let node = host.node_at(place).ok_or(Errno::Noent)?;
    put_filestat(host, memory, Names::Node(node), arguments.ret);
    Ok(())
}

/// `path_create_directory`.
pub fn create_directory(
    alloc: Global,
    host: &mut WasiState,
    memory: &Memory,
    fd: u32,
    path: u32,
    len: u32,
) -> Result<(), CallStop>
    ensures done { OnOk result (path_create_directory fd path len memory.now.bytes host.old.host
        ≡ Ok (record { memory = memory.now.bytes; host = host.new.host })) }
    ensures stopped { IfErr result (λ why.
        StopsStep why (path_create_directory fd path len memory.now.bytes host.old.host)) }
    ensures kept { IfErr result (λ _. host.new ≡ host.old) }
    ensures released { host.new.released ≡ host.old.released }
{
    let place = place_of_path(host, memory, fd, Rights::PATH_CREATE_DIRECTORY, path, len)?;
    make_directory(alloc, host, place)
}

/// Makes a directory at a place.
fn make_directory(alloc: Global, host: &mut WasiState, place: PathEnd<'_>) -> Result<(), CallStop>
    requires well { IsWellPlaced host.old.host.files (walk_end_of place) }
    ensures done { (m : Bytes) → OnOk result (directory_made (walk_end_of place.entry) m
        host.old.host ≡ Ok (record { memory = m; host = host.new.host })) }
    ensures stopped { (m : Bytes) → IfErr result (λ why.
        StopsStep why (directory_made (walk_end_of place.entry) m host.old.host)) }
    ensures kept { IfErr result (λ _. host.new ≡ host.old) }
    ensures released { host.new.released ≡ host.old.released }
{
    let PathEnd::Leaf(directory, name) = place else {
        return Err(CallStop::Refused(Errno::Inval));
    };
    if host.child(directory, name).is_some() {
        return Err(CallStop::Refused(Errno::Exist));
    }
    host.check_path(directory)?;
    host.check_free_node()?;
    host.create(alloc, directory, name, NodeType::Directory)?;
    Ok(())
}

/// `path_remove_directory`.
pub fn remove_directory(
    host: &mut WasiState,
    memory: &Memory,
    fd: u32,
    path: u32,
    len: u32,
) -> Result<(), Errno>
    ensures done { OnOk result (path_remove_directory fd path len memory.now.bytes host.old.host
        ≡ Ok (record { memory = memory.now.bytes; host = host.new.host })) }
    ensures refused { IfErr result (λ e. path_remove_directory fd path len memory.now.bytes
        host.old.host ≡ Err (Refuses e)) }
    ensures kept { IfErr result (λ _. host.new ≡ host.old) }
    ensures released { host.new.released ≡ host.old.released }
{
    let place = place_of_path(host, memory, fd, Rights::PATH_REMOVE_DIRECTORY, path, len)?;
    remove_directory_at(host, place)
}

/// Removes the directory at a place.
fn remove_directory_at(host: &mut WasiState, place: PathEnd<'_>) -> Result<(), Errno>
    ensures done { (m : Bytes) → OnOk result (directory_removed (walk_end_of place.entry) m
        host.old.host ≡ Ok (record { memory = m; host = host.new.host })) }
    ensures refused { (m : Bytes) → IfErr result (λ e.
        directory_removed (walk_end_of place.entry) m host.old.host ≡ Err (Refuses e)) }
    ensures kept { IfErr result (λ _. host.new ≡ host.old) }
    ensures released { host.new.released ≡ host.old.released }
{
    let PathEnd::Leaf(directory, name) = place else {
        return Err(Errno::Inval);
    };
    let node = host.child(directory, name).ok_or(Errno::Noent)?;
    if !host.is_directory(Names::Node(node)) {
        return Err(Errno::Notdir);
    }
    if !host.is_empty(node) {
        return Err(Errno::Notempty);
    }
    host.remove(node);
    Ok(())
}

/// `path_unlink_file`.
pub fn unlink_file(
    host: &mut WasiState,
    memory: &Memory,
    fd: u32,
    path: u32,
    len: u32,
) -> Result<(), Errno>
    ensures done { OnOk result (path_unlink_file fd path len memory.now.bytes host.old.host
        ≡ Ok (record { memory = memory.now.bytes; host = host.new.host })) }
    ensures refused { IfErr result (λ e. path_unlink_file fd path len memory.now.bytes
        host.old.host ≡ Err (Refuses e)) }
    ensures kept { IfErr result (λ _. host.new ≡ host.old) }
    ensures released { host.new.released ≡ host.old.released }
{
    let place = place_of_path(host, memory, fd, Rights::PATH_UNLINK_FILE, path, len)?;
    unlink_file_at(host, place)
}

/// Unlinks the file at a place.
fn unlink_file_at(host: &mut WasiState, place: PathEnd<'_>) -> Result<(), Errno>
    ensures done { (m : Bytes) → OnOk result (file_unlinked (walk_end_of place.entry) m
        host.old.host ≡ Ok (record { memory = m; host = host.new.host })) }
    ensures refused { (m : Bytes) → IfErr result (λ e.
        file_unlinked (walk_end_of place.entry) m host.old.host ≡ Err (Refuses e)) }
    ensures kept { IfErr result (λ _. host.new ≡ host.old) }
    ensures released { host.new.released ≡ host.old.released }
{
    let PathEnd::Leaf(directory, name) = place else {
        return Err(Errno::Inval);
    };
    let node = host.child(directory, name).ok_or(Errno::Noent)?;
    if host.is_directory(Names::Node(node)) {
        return Err(Errno::Isdir);
    }
    host.remove(node);
    Ok(())
}
