//! Renaming: `path_rename`.
//!
//! **A new name is copied before a rename changes anything.** The rename itself can't fail.

ghost use Rattle.std.specs.Prelude.{◌≡◌, ◌++◌, ◌∷◌, [], OnOk, IfErr, Ok};
ghost use Rattle.file_tree.specs.rules.Changes.{path_at};
ghost use Rattle.wasi_calls_rules.specs.WasiStates.{IsWasiState};
ghost use Rattle.wasi_calls_rules.specs.Checks.{Bytes};
ghost use Rattle.wasi_calls_rules.specs.Entries.{gives_way, is_same_node, renamed_over};
ghost use Rattle.wasi_calls_rules.specs.Entries.{path_rename};
ghost use Rattle.wasi_calls.specs.Places.{IsWellPlaced, walk_end_of};
ghost use Rattle.wasi_calls.specs.Renamings.{MayTake, place_renamed};
ghost use Rattle.wasi_calls.specs.Steps.{GivesValue, StopsStep};

use crate::descriptor::Names;
use crate::host::WasiState;
use crate::paths::{PathEnd, PathNames, path_bytes, place_of_names};
use crate::stop::CallStop;
use file_tree::ByteList;
use guest_memory::Memory;
use std::alloc::Global;
use wasi_abi::{Errno, Rights};

/// The arguments of `path_rename`.
#[derive(Clone, Copy)]
pub struct RenameArguments {
    pub old_fd: u32,
    pub old_path: u32,
    pub old_len: u32,
    pub new_fd: u32,
    pub new_path: u32,
    pub new_len: u32,
}

/// Whether a node is the one that is at its target.
fn is_same(node: u64, replaced: Option<u64>) -> bool
    ensures { result ≡ is_same_node node replaced }
{
    match replaced {
        Some(other) => other == node,
        None => false,
    }
}

/// Nothing where what is at a target gives way to a node. `Isdir` where a file comes to a
/// directory, `Notdir` where a directory comes to a file, and `Notempty` where that directory has
/// entries.
fn check_way(host: &WasiState, node: u64, replaced: Option<u64>) -> Result<(), Errno>
    ensures { GivesValue (λ x. x) result (gives_way host.now.host.files node replaced) }
{
    let Some(other) = replaced else {
        return Ok(());
    };
    let is_directory = host.is_directory(Names::Node(node));
    if host.is_directory(Names::Node(other)) {
        if !is_directory {
            return Err(Errno::Isdir);
        }
        if !host.is_empty(other) {
            return Err(Errno::Notempty);
        }
        return Ok(());
    }
    if is_directory {
        return Err(Errno::Notdir);
    }
    Ok(())
}

/// Gives a node a name in a directory. What stood there loses its path.
fn rename_over(
    host: &mut WasiState,
    node: u64,
    replaced: Option<u64>,
    directory: u64,
    name: ByteList,
)
    requires shape { IsWasiState host.old.host }
    requires may { MayTake host.old.host.files node directory name replaced }
    ensures { host.new ≡ record host.old {
      host = renamed_over node replaced
          (path_at host.old.host.files node)
          (path_at host.old.host.files directory ++ name ∷ []) host.old.host;
    } }
{
    match replaced {
        None => host.rename(node, directory, name),
        Some(other) => {
            host.remove(other);
            host.rename(node, directory, name);
        }
    }
}

/// Renames what is at a place to another place.
fn rename_place(
    alloc: Global,
    host: &mut WasiState,
    source: PathEnd<'_>,
    target: PathEnd<'_>,
) -> Result<(), CallStop>
    requires source { IsWellPlaced host.old.host.files (walk_end_of source) }
    requires target { IsWellPlaced host.old.host.files (walk_end_of target) }
    ensures done { (m : Bytes) → OnOk result (place_renamed (walk_end_of source.entry)
        (walk_end_of target.entry) m host.old.host
        ≡ Ok (record { memory = m; host = host.new.host })) }
    ensures stopped { (m : Bytes) → IfErr result (λ why. StopsStep why
        (place_renamed (walk_end_of source.entry) (walk_end_of target.entry) m host.old.host)) }
    ensures kept { IfErr result (λ _. host.new ≡ host.old) }
    ensures released { host.new.released ≡ host.old.released }
{
    let PathEnd::Leaf(from, _) = source else {
        return Err(CallStop::Refused(Errno::Inval));
    };
    let PathEnd::Leaf(to, name) = target else {
        return Err(CallStop::Refused(Errno::Inval));
    };
    let Some(node) = host.node_there(source) else {
        return Err(CallStop::Refused(Errno::Noent));
    };
    host.check_path(from)?;
    host.check_path(to)?;
    if host.is_within(node, to) {
        return Err(CallStop::Refused(Errno::Inval));
    }
    let replaced = host.node_at(target);
    if is_same(node, replaced) {
        return Ok(());
    }
    check_way(host, node, replaced)?;
    let name = ByteList::copy_of(alloc, name)?;
    rename_over(host, node, replaced, to, name);
    Ok(())
}

/// `path_rename`.
pub fn rename(
    alloc: Global,
    host: &mut WasiState,
    memory: &Memory,
    arguments: RenameArguments,
) -> Result<(), CallStop>
    ensures done { OnOk result (path_rename arguments.old_fd arguments.old_path arguments.old_len
        arguments.new_fd arguments.new_path arguments.new_len memory.now.bytes host.old.host
        ≡ Ok (record { memory = memory.now.bytes; host = host.new.host })) }
    ensures stopped { IfErr result (λ why. StopsStep why (path_rename arguments.old_fd
        arguments.old_path arguments.old_len arguments.new_fd arguments.new_path arguments.new_len
        memory.now.bytes host.old.host)) }
    ensures kept { IfErr result (λ _. host.new ≡ host.old) }
    ensures released { host.new.released ≡ host.old.released }
{
    let old = host.descriptor(arguments.old_fd)?;
    let new = host.descriptor(arguments.new_fd)?;
    host.a_directory(old)?;
    host.a_directory(new)?;
    old.check_right(Rights::PATH_RENAME_SOURCE)?;
    new.check_right(Rights::PATH_RENAME_TARGET)?;
    let old_bytes = path_bytes(memory, arguments.old_path, arguments.old_len)?;
    let new_bytes = path_bytes(memory, arguments.new_path, arguments.new_len)?;
    let old_names = PathNames::of(old_bytes)?;
    let new_names = PathNames::of(new_bytes)?;
    let source = place_of_names(host, old, old_names)?;
    let target = place_of_names(host, new, new_names)?;
    rename_place(alloc, host, source, target)?;
    Ok(())
}
