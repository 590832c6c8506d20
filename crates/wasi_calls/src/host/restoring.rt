//! A host that is made of the parts that an image has.

ghost use Rattle.std.specs.Prelude.{◌≡◌, ◌≢◌, ◌*◌, ◌≤◌, ◌↔◌, ℕ, IfOk, IfSome, IsTrue, Err};
ghost use Rattle.file_tree.specs.declared.limits.TheConstants.{UNIT_BYTES};
ghost use Rattle.file_tree.specs.rules.Files.{IsFiles, used};
ghost use Rattle.wasi_abi.specs.declared.version.Version.{Version};
ghost use Rattle.wasi_calls_rules.specs.WasiStates.{IsThere, IsDescriptor, IsUnfinished};
ghost use Rattle.wasi_calls_rules.specs.WasiStates.{IsWasiState};
ghost use Rattle.wasi_calls.specs.declared.host.restoring.PartsFault.TheVariants as fault;
ghost use Rattle.wasi_calls.specs.Restoring.{MayBeOpen, MayAllBeOpen, HasRoot, is_kept};
ghost use Rattle.wasi_calls.specs.Restoring.{AreRemovedNamed, IsDescriptorTable};
ghost use Rattle.wasi_calls.specs.rules.Restored.{held_host_from};
ghost use Rattle.wasi_calls.specs.Views.{target_of};

use crate::descriptor::{Descriptor, Names, PREOPENED};
use crate::host::descriptors::{is_named, names_node};
use crate::host::{ROOT, WasiState};
use crate::streams::{Streams, is_without_newline};
use file_tree::Tree;
use file_tree::limits::UNIT_BYTES;
use guest_memory::laws::{are_bytes, has_64_bits};
use std::alloc::{AllocError, Global};
use wasi_abi::{Config, Version};
use wasi_calls_rules::limits::{DESCRIPTORS, LINE_BYTES};

/// What an image has of the host's side of a process. No line waits: all that were emitted were
/// released.
#[derive(Drop)]
pub struct WasiStateParts {
    /// The files and directories.
    pub tree: Tree,
    /// What is open under each number, from 0 on.
    pub descriptors: Vec<Option<Descriptor>>,
    /// Bytes of requests that were not read yet.
    pub unread: Vec<u8>,
    /// Whether input has ended.
    pub input_ended: bool,
    /// The last monotonic time that a guest saw, in nanoseconds.
    pub last_monotonic: u64,
    /// The unfinished line of stdout.
    pub first: Vec<u8>,
    /// The unfinished line of stderr.
    pub second: Vec<u8>,
    /// How many lines were released.
    pub released: u64,
}

/// Why parts make no host.
#[derive(Clone, Copy, Debug, PartialEq, Eq)]
pub enum PartsFault {
    /// No host has these parts.
    NoWasiState,
    /// Memory ran out.
    Memory,
}

/// Whether a node that is named is there.
fn is_there(tree: &Tree, names: Names) -> bool
    ensures { IsTrue result ↔ IsThere tree.now (target_of names) }
{
    match names {
        Names::Stream(_) => true,
        Names::Node(node) => tree.has_node(node),
    }
}

/// Whether a node that is named is there, and offset, flags and rights are within their bounds.
fn is_descriptor(tree: &Tree, descriptor: &Descriptor) -> bool
    ensures { IsTrue result ↔ IsDescriptor tree.now descriptor.now }
{
    is_there(tree, descriptor.names()) && descriptor.is_bounded()
}

/// Whether what is open under a number may be.
fn may_be_open(tree: &Tree, number: usize, descriptor: &Option<Descriptor>) -> bool
    ensures { IsTrue result ↔ IfSome descriptor.now (MayBeOpen tree.now number) }
{
    match descriptor {
        Some(descriptor) => { is_descriptor(tree, descriptor) && descriptor.is_own_stream(number) }
        None => true,
    }
}

/// Whether what is open may be, under each number.
fn may_all_be_open(tree: &Tree, descriptors: &[Option<Descriptor>]) -> bool
    ensures { IsTrue result ↔ MayAllBeOpen tree.now descriptors.now }
{
    for number in 0..descriptors.len() {
        if !may_be_open(tree, number, &descriptors[number]) {
            return false;
        }
    }
    true
}

/// Whether the root is open under its number.
fn has_root(descriptors: &[Option<Descriptor>]) -> bool
    ensures { IsTrue result ↔ HasRoot descriptors.now }
{
    match descriptors.get(PREOPENED as usize) {
        Some(descriptor) => names_node(descriptor, ROOT),
        None => false,
    }
}

/// Whether a node has a path, or a descriptor names it.
fn is_kept(tree: &Tree, descriptors: &[Option<Descriptor>], node: Option<u64>) -> bool
    ensures { result ≡ is_kept tree.now descriptors.now node }
{
    match node {
        Some(node) => tree.has_path(node) || is_named(descriptors, node),
        None => true,
    }
}

/// Whether a descriptor names each node without a path.
fn are_removed_named(tree: &Tree, descriptors: &[Option<Descriptor>]) -> bool
    ensures { IsTrue result ↔ AreRemovedNamed tree.now descriptors.now }
{
    for place in 0..tree.len() {
        if !is_kept(tree, descriptors, tree.number_at(place)) {
            return false;
        }
    }
    true
}

/// Whether a line may be unfinished: it is short, and has no newline.
fn is_unfinished(text: &[u8]) -> bool
    ensures { IsTrue result ↔ IsUnfinished text.now }
{
    are_bytes(text);
    text.len() <= LINE_BYTES && is_without_newline(text)
}

/// Whether all files are within the room that is configured.
fn fits_room(tree: &Tree, config: &Config) -> bool
    ensures fits { IsTrue result ↔ (used tree.now ≤ config.now.files * UNIT_BYTES) }
    ensures files { IsFiles tree.now }
{
    let _nodes = tree.len();
    tree.used_bytes() <= u64::from(config.files()) * UNIT_BYTES
}

/// Whether these can be the descriptors of a host.
fn is_table(tree: &Tree, descriptors: &[Option<Descriptor>]) -> bool
    ensures { IsTrue result ↔ IsDescriptorTable tree.now descriptors.now }
{
    descriptors.len() == DESCRIPTORS
        && may_all_be_open(tree, descriptors)
        && has_root(descriptors)
        && are_removed_named(tree, descriptors)
}

/// Whether a host has these parts.
fn is_host(config: &Config, parts: &WasiStateParts) -> bool
    ensures { (version : Version) → IsTrue result
        ↔ IsWasiState (held_host_from config.now version parts.now).host }
{
    are_bytes(parts.unread.as_slice());
    has_64_bits(parts.last_monotonic);
    fits_room(&parts.tree, config)
        && is_table(&parts.tree, parts.descriptors.as_slice())
        && is_unfinished(parts.first.as_slice())
        && is_unfinished(parts.second.as_slice())
}

impl WasiState {
    /// The host that has these parts. It takes memory for the two lines that an end may
    /// emit, after all tests.
    pub fn from_parts(
        alloc: Global,
        config: Config,
        version: Version,
        parts: WasiStateParts,
    ) -> Result<WasiState, PartsFault>
        ensures made { IfOk result (λ h. h ≡ held_host_from config version parts) }
        ensures is { result ≢ Err PartsFault.NoWasiState
            → IsWasiState (held_host_from config version parts).host }
        ensures refused { result ≡ Err PartsFault.NoWasiState
            → ¬ IsWasiState (held_host_from config version parts).host }
    {
        if !is_host(&config, &parts) {
            return Err(PartsFault::NoWasiState);
        }
        let streams = Streams::of_unfinished(alloc, parts.first, parts.second, parts.released)?;
        Ok(WasiState {
            config,
            version,
            tree: parts.tree,
            descriptors: parts.descriptors,
            unread: parts.unread,
            input_ended: parts.input_ended,
            last_monotonic: parts.last_monotonic,
            streams,
        })
    }
}

impl From<AllocError> for PartsFault {
    ghost from_gives = { λ _ made. made ≡ fault.Memory };

    fn from(_error: AllocError) -> PartsFault {
        PartsFault::Memory
    }
}
