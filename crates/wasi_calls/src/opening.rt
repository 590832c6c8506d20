//! Opening a path: `path_open`.

ghost use Rattle.std.specs.Prelude.{◌≡◌, ◌&&◌, ◌||◌, ◌<◌, ◌≤◌, ◌^◌, ℕ, true, false, None, Ok};
ghost use Rattle.std.specs.Prelude.{OnOk, OnErr, IfOk, IfErr};
ghost use Rattle.guest_memory.specs.rules.Bytes.{with_part};
ghost use Rattle.wasi_abi.specs.Bits.{bit_of};
ghost use Rattle.wasi_abi.specs.declared.flags.TheConstants.{ALL_DESCRIPTOR_FLAGS};
ghost use Rattle.wasi_abi.specs.rules.Layouts.{u32_bytes};
ghost use Rattle.wasi_abi.specs.rules.Numbers.{rights_number, has_flag, has_right, fd_write_right};
ghost use Rattle.wasi_abi.specs.rules.Numbers.{create_flag, exclusive_flag, truncate_flag};
ghost use Rattle.wasi_calls_rules.specs.WasiStates.{Node, IsThere, IsDescriptor};
ghost use Rattle.file_tree.specs.rules.Files.{Files, is_directory};
ghost use Rattle.wasi_calls_rules.specs.Checks.{Bytes, needs, within_rights};
ghost use Rattle.wasi_calls_rules.specs.Entries.{new_descriptor, path_open, cut_if};
ghost use Rattle.wasi_calls_rules.specs.Entries.{opened_there, opened_new, opened_at};
ghost use Rattle.wasi_calls_rules.specs.Paths.{node_at};
ghost use Rattle.wasi_calls.specs.Openings.{asked_for, checked_mode, may_open, right_flags};
ghost use Rattle.wasi_calls.specs.Openings.{may_be_opened};
ghost use Rattle.wasi_calls.specs.Places.{IsWellPlaced, walk_end_of};
ghost use Rattle.wasi_calls.specs.Steps.{GivesValue, StopsStep};
ghost use Rattle.wasi_calls.specs.rules.Calls.{IsAsLarge};

use crate::descriptor::{Descriptor, Names};
use crate::host::WasiState;
use crate::memory::in_range;
use crate::paths::{PathEnd, PathNames, path_bytes, place_of_names};
use crate::stop::CallStop;
use file_tree::NodeType;
use guest_memory::Memory;
use std::alloc::{AllocError, Global};
use wasi_abi::{ALL_LOOKUP_FLAGS, DescriptorFlags, Errno, OpenFlags, Rights};

/// The bits of `oflags` for which the descriptor needs a right.
const CREATE_BIT: u32 = 0;

const TRUNCATE_BIT: u32 = 3;

/// The arguments of `path_open`.
#[derive(Clone, Copy)]
pub struct OpenArguments {
    pub fd: u32,
    pub dirflags: u32,
    pub path: u32,
    pub len: u32,
    pub mode: AskedMode,
    /// Where the number of the new descriptor is put.
    pub ret: u32,
}

/// What a guest asks for.
#[derive(Clone, Copy)]
pub struct AskedMode {
    pub oflags: u32,
    pub base: u64,
    pub inheriting: u64,
    pub fdflags: u32,
}

/// What is asked for, in flags that there are.
#[derive(Clone, Copy)]
pub struct CheckedMode {
    flags: OpenFlags,
    base: Rights,
    inheriting: Rights,
    descriptor_flags: DescriptorFlags,
}

/// Whether a number has this bit.
fn has_bit(number: u32, bit: u32) -> bool
    requires { bit < 32 }
    ensures { result ≡ has_flag number bit }
{
    (number >> bit) & 1 == 1
}

/// A right where something is asked for that needs it, else `Notcapable`.
fn check_need(descriptor: &Descriptor, is_asked: bool, right: Rights) -> Result<(), Errno>
    requires one { rights_number right ≡ 2 ^ bit_of (rights_number right) }
    ensures { GivesValue (λ x. x) result
        (needs is_asked (bit_of (rights_number right)) descriptor.now) }
{
    if is_asked {
        descriptor.check_right(right)
    } else {
        Ok(())
    }
}

/// Nothing where these rights are among all those, else `Notcapable`.
fn check_within(rights: Rights, all: Rights) -> Result<(), Errno>
    ensures { GivesValue (λ x. x) result
        (within_rights (rights_number rights) (rights_number all)) }
{
    if rights.is_within(all) {
        Ok(())
    } else {
        Err(Errno::Notcapable)
    }
}

/// The rights that an opening needs of the directory's descriptor, else `Notcapable`.
fn check_rights(descriptor: &Descriptor, mode: AskedMode) -> Result<(), Errno>
    ensures { GivesValue (λ x. x) result (may_open descriptor.now (asked_for mode)) }
{
    descriptor.check_right(Rights::PATH_OPEN)?;
    let creates = has_bit(mode.oflags, CREATE_BIT);
    check_need(descriptor, creates, Rights::PATH_CREATE_FILE)?;
    let truncates = has_bit(mode.oflags, TRUNCATE_BIT);
    check_need(descriptor, truncates, Rights::PATH_FILESTAT_SET_SIZE)?;
    let inheriting = descriptor.inheriting_rights();
    check_within(Rights::from_number(mode.base), inheriting)?;
    check_within(Rights::from_number(mode.inheriting), inheriting)
}

/// What is asked for, or `Inval` where flags are none, or a directory is to be made.
fn check_flags(dirflags: u32, mode: AskedMode) -> Result<CheckedMode, Errno>
    ensures gives { GivesValue (λ _. tt) result (right_flags dirflags (asked_for mode)) }
    ensures mode { IfOk result (λ a. checked_mode a ≡ asked_for mode) }
    ensures few { IfOk result (λ a. (checked_mode a).fdflags ≤ ALL_DESCRIPTOR_FLAGS) }
{
    if dirflags > ALL_LOOKUP_FLAGS {
        return Err(Errno::Inval);
    }
    let flags = OpenFlags::from_number(mode.oflags).ok_or(Errno::Inval)?;
    let descriptor_flags = DescriptorFlags::from_number(mode.fdflags).ok_or(Errno::Inval)?;
    if flags.has(OpenFlags::CREATE) && flags.has(OpenFlags::DIRECTORY) {
        return Err(Errno::Inval);
    }
    Ok(CheckedMode {
        flags,
        base: Rights::from_number(mode.base),
        inheriting: Rights::from_number(mode.inheriting),
        descriptor_flags,
    })
}

/// Nothing where a node that is there may be opened so. `Exist` where it is to be made, `Isdir`
/// where a directory is to be changed, and `Notdir` where a file is to be a directory.
fn check_there(is_directory: bool, mode: CheckedMode) -> Result<(), Errno>
    ensures { GivesValue (λ x. x) result (may_be_opened is_directory (checked_mode mode)) }
{
    if makes(mode) {
        return Err(Errno::Exist);
    }
    if is_directory && changes(mode) {
        return Err(Errno::Isdir);
    }
    if !is_directory && mode.flags.has(OpenFlags::DIRECTORY) {
        return Err(Errno::Notdir);
    }
    Ok(())
}

/// Whether a file is to be made, and none may be there.
fn makes(mode: CheckedMode) -> bool
    ensures { result ≡ (has_flag (checked_mode mode).oflags create_flag
        && has_flag (checked_mode mode).oflags exclusive_flag) }
{
    mode.flags.has(OpenFlags::CREATE) && mode.flags.has(OpenFlags::EXCLUSIVE)
}

/// Whether what is opened is to be made, cut or written.
fn changes(mode: CheckedMode) -> bool
    ensures { result ≡ (has_flag (checked_mode mode).oflags create_flag
        || has_flag (checked_mode mode).oflags truncate_flag
        || has_right (checked_mode mode).base fd_write_right) }
{
    mode.flags.has(OpenFlags::CREATE) || mode.flags.has(OpenFlags::TRUNCATE) || writes(mode)
}

/// Whether what is opened is to be written.
fn writes(mode: CheckedMode) -> bool
    ensures { result ≡ has_right (checked_mode mode).base fd_write_right }
{
    mode.base.has(Rights::FD_WRITE)
}

/// The descriptor of a node that is opened. Its rights are cut to what a node of its type may have.
fn new_descriptor(node: u64, is_directory: bool, mode: CheckedMode) -> Descriptor
    ensures new { result ≡ new_descriptor is_directory node (checked_mode mode).fdflags
        (checked_mode mode).base (checked_mode mode).inheriting }
    ensures is { (fs : Files) → IsThere fs (Node node)
        → (checked_mode mode).fdflags ≤ ALL_DESCRIPTOR_FLAGS → IsDescriptor fs result }
{
    if is_directory {
        let base = mode.base.intersection(Rights::DIRECTORY);
        let inheriting = mode.inheriting.intersection(Rights::ALL);
        Descriptor::directory(node, base, inheriting).with_flags(mode.descriptor_flags)
    } else {
        let base = mode.base.intersection(Rights::FILE);
        Descriptor::file(node, base).with_flags(mode.descriptor_flags)
    }
}

/// Opens a node that is there, and gives the number of its descriptor.
fn open_there(host: &mut WasiState, node: u64, mode: CheckedMode) -> Result<u32, CallStop>
    requires there { IsThere host.old.host.files (Node node) }
    requires few { (checked_mode mode).fdflags ≤ ALL_DESCRIPTOR_FLAGS }
    ensures done { (ret : ℕ) (m : Bytes) → IfOk result (λ n.
        opened_there node (checked_mode mode) ret m host.old.host
        ≡ Ok (record { memory = with_part m ret (u32_bytes n); host = host.new.host })) }
    ensures stopped { (ret : ℕ) (m : Bytes) → IfErr result (λ why.
        StopsStep why (opened_there node (checked_mode mode) ret m host.old.host)) }
    ensures kept { IfErr result (λ _. host.new ≡ host.old) }
    ensures released { host.new.released ≡ host.old.released }
{
    let is_directory = host.is_directory(Names::Node(node));
    check_there(is_directory, mode)?;
    let number = host.free_number()?;
    cut_if(host, node, mode.flags.has(OpenFlags::TRUNCATE))?;
    host.open(number, new_descriptor(node, is_directory, mode));
    Ok(number)
}

/// Cuts a file to nothing, where that is asked for. It fails only when out of memory, and changes
/// nothing then.
fn cut_if(host: &mut WasiState, node: u64, is_cut: bool) -> Result<(), AllocError>
    requires there { IsThere host.old.host.files (Node node) }
    requires file { is_cut ≡ true → is_directory host.old.host.files node ≡ false }
    ensures cut { OnOk result (host.new ≡ record host.old {
      host = record host.old.host {
        files = cut_if is_cut node host.old.host.files;
      };
    }) }
    ensures there { OnOk result (IsThere host.new.host.files (Node node)) }
    ensures unchanged { OnErr result (host.new ≡ host.old) }
{
    if is_cut {
        return host.truncate(node);
    }
    Ok(())
}

/// Makes a file at a place and opens it, and gives the number of its descriptor.
fn open_new(
    alloc: Global,
    host: &mut WasiState,
    place: PathEnd<'_>,
    mode: CheckedMode,
) -> Result<u32, CallStop>
    requires well { IsWellPlaced host.old.host.files (walk_end_of place) }
    requires free { node_at host.old.host.files (walk_end_of place) ≡ None }
    requires few { (checked_mode mode).fdflags ≤ ALL_DESCRIPTOR_FLAGS }
    ensures done { (ret : ℕ) (m : Bytes) → IfOk result (λ n.
        opened_new (walk_end_of place.entry) (checked_mode mode) ret m host.old.host
        ≡ Ok (record { memory = with_part m ret (u32_bytes n); host = host.new.host })) }
    ensures stopped { (ret : ℕ) (m : Bytes) → IfErr result (λ why.
        StopsStep why (opened_new (walk_end_of place.entry)
        (checked_mode mode) ret m host.old.host)) }
    ensures kept { IfErr result (λ _. host.new ≡ host.old) }
    ensures released { host.new.released ≡ host.old.released }
{
    if !mode.flags.has(OpenFlags::CREATE) {
        return Err(CallStop::Refused(Errno::Noent));
    }
    let PathEnd::Leaf(directory, name) = place else {
        return Err(CallStop::Refused(Errno::Inval));
    };
    host.check_path(directory)?;
    let number = host.free_number()?;
    host.check_free_node()?;
    let node = host.create(alloc, directory, name, NodeType::File)?;
    host.open(number, new_descriptor(node, false, mode));
    Ok(number)
}

/// Opens what is at a place, and gives the number of its descriptor.
fn open_at(
    alloc: Global,
    host: &mut WasiState,
    place: PathEnd<'_>,
    mode: CheckedMode,
) -> Result<u32, CallStop>
    requires well { IsWellPlaced host.old.host.files (walk_end_of place) }
    requires few { (checked_mode mode).fdflags ≤ ALL_DESCRIPTOR_FLAGS }
    ensures done { (ret : ℕ) (m : Bytes) → IfOk result (λ n.
        opened_at (node_at host.old.host.files (walk_end_of place.entry)) (walk_end_of place.entry)
        (checked_mode mode) ret m host.old.host
        ≡ Ok (record { memory = with_part m ret (u32_bytes n); host = host.new.host })) }
    ensures stopped { (ret : ℕ) (m : Bytes) → IfErr result (λ why. StopsStep why
        (opened_at (node_at host.old.host.files (walk_end_of place.entry)) (walk_end_of place.entry)
        (checked_mode mode) ret m host.old.host)) }
    ensures kept { IfErr result (λ _. host.new ≡ host.old) }
    ensures released { host.new.released ≡ host.old.released }
{
    match host.node_there(place) {
        Some(node) => open_there(host, node, mode),
        None => open_new(alloc, host, place, mode),
    }
}

/// `path_open`.
pub fn open(
    alloc: Global,
    host: &mut WasiState,
    memory: &mut Memory,
    arguments: OpenArguments,
) -> Result<(), CallStop>
    ensures done { OnOk result (path_open arguments.fd arguments.dirflags arguments.path
        arguments.len (asked_for arguments.mode) arguments.ret memory.old.bytes host.old.host
        ≡ Ok (record { memory = memory.new.bytes; host = host.new.host })) }
    ensures stopped { IfErr result (λ why. StopsStep why (path_open arguments.fd
        arguments.dirflags arguments.path arguments.len (asked_for arguments.mode) arguments.ret
        memory.old.bytes host.old.host)) }
    ensures memory_kept { IfErr result (λ _. memory.new ≡ memory.old) }
    ensures host_kept { IfErr result (λ _. host.new ≡ host.old) }
    ensures released { host.new.released ≡ host.old.released }
    ensures large { IsAsLarge memory.old memory.new }
{
    let descriptor = host.descriptor(arguments.fd)?;
    host.a_directory(descriptor)?;
    check_rights(descriptor, arguments.mode)?;
    let mode = check_flags(arguments.dirflags, arguments.mode)?;
    let bytes = path_bytes(memory, arguments.path, arguments.len)?;
    in_range(memory, arguments.ret, 4)?;
    let names = PathNames::of(bytes)?;
    let place = place_of_names(host, descriptor, names)?;
    let number = open_at(alloc, host, place, mode)?;
    memory.store_u32(arguments.ret, 0, number).unwrap();
    Ok(())
}
