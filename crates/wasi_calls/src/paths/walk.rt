//! Where a path leads.

ghost use Rattle.std.specs.Prelude.{◌≡◌, ◌^◌, [], true, IfOk};
ghost use Rattle.wasi_abi.specs.Bits.{bit_of};
ghost use Rattle.wasi_abi.specs.rules.Numbers.{rights_number};
ghost use Rattle.file_tree.specs.rules.Files.{is_directory};
ghost use Rattle.wasi_calls_rules.specs.Checks.{names_directory};
ghost use Rattle.wasi_calls_rules.specs.Entries.{placed};
ghost use Rattle.wasi_calls_rules.specs.Paths.{is_back, walk};
ghost use Rattle.wasi_calls.specs.Entries.{place_of_path};
ghost use Rattle.wasi_calls.specs.Places.{AreWalked, IsWellPlaced, walk_end_of};
ghost use Rattle.wasi_calls.specs.Steps.{GivesValue};

use crate::descriptor::{Descriptor, Names};
use crate::host::WasiState;
use crate::paths::form::PathNames;
use crate::paths::path_bytes;
use guest_memory::Memory;
use wasi_abi::{Errno, Rights};

/// Where a walk ends: at a directory, or at a name in one.
#[derive(Clone, Copy)]
pub enum PathEnd<'a> {
    Directory(u64),
    Leaf(u64, &'a [u8]),
}

/// Where a path leads from an open directory whose descriptor needs this right, or why it leads
/// nowhere.
pub fn place_of_path<'a>(
    host: &WasiState,
    memory: &'a Memory,
    fd: u32,
    right: Rights,
    path: u32,
    len: u32,
) -> Result<PathEnd<'a>, Errno>
    requires one { rights_number right ≡ 2 ^ bit_of (rights_number right) }
    ensures gives { GivesValue walk_end_of result (place_of_path (bit_of (rights_number right)) fd
        path len memory.now.bytes host.now.host) }
    ensures well { IfOk result (λ place. IsWellPlaced host.now.host.files (walk_end_of place)) }
{
    let descriptor = host.descriptor(fd)?;
    host.a_directory(descriptor)?;
    descriptor.check_right(right)?;
    let bytes = path_bytes(memory, path, len)?;
    let names = PathNames::of(bytes)?;
    place_of_names(host, descriptor, names)
}

/// Where the names lead from an open directory. `Notcapable` where they leave it, `Noent` where one
/// but the last isn't there, and `Notdir` where it is no directory.
pub fn place_of_names<'a>(
    host: &WasiState,
    descriptor: &Descriptor,
    names: PathNames<'a>,
) -> Result<PathEnd<'a>, Errno>
    requires directory { names_directory host.now.host descriptor.now.target ≡ true }
    requires walked { AreWalked names }
    ensures gives { GivesValue walk_end_of result
        (placed host.now.host descriptor.now names.entry) }
    ensures well { IfOk result (λ place. IsWellPlaced host.now.host.files (walk_end_of place)) }
{
    match descriptor.names() {
        Names::Node(directory) => walk(host, directory, names),
        Names::Stream(_) => unreachable!(),
    }
}

/// Where the names lead from a directory. They may lead back no further than there.
fn walk<'a>(host: &WasiState, start: u64, names: PathNames<'a>) -> Result<PathEnd<'a>, Errno>
    requires directory { is_directory host.now.host.files start ≡ true }
    requires walked { AreWalked names }
    ensures gives { GivesValue walk_end_of result (walk host.now.host.files start [] names.entry) }
    ensures well { IfOk result (λ place. IsWellPlaced host.now.host.files (walk_end_of place)) }
{
    let mut names = names;
    let mut directory = start;
    while let Some(name) = names.next() {
        if is_back(name) {
            if directory == start {
                return Err(Errno::Notcapable);
            }
            directory = host.parent(directory);
        } else if names.is_empty() {
            return Ok(PathEnd::Leaf(directory, name));
        } else {
            directory = host.subdirectory(directory, name)?;
        }
    }
    Ok(PathEnd::Directory(directory))
}

/// Whether it is `..`.
fn is_back(name: &[u8]) -> bool
    ensures { result ≡ is_back name.now }
{
    match name {
        [first, second] => *first == b'.' && *second == b'.',
        _ => false,
    }
}
