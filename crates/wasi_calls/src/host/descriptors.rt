//! Open descriptors of a host.

ghost use Rattle.std.specs.Prelude.{◌≡◌, ◌≢◌, ◌<◌, ◌≤◌, ◌^◌, true, false, Some, None, Ok, IfOk};
ghost use Rattle.std.specs.Prelude.{slice_get, slice_set};
ghost use Rattle.file_tree.specs.rules.Files.{is_directory};
ghost use Rattle.wasi_calls_rules.specs.WasiStates.{Node, Descriptor as Opened, IsThere};
ghost use Rattle.wasi_calls_rules.specs.WasiStates.{IsDescriptor, IsWasiState};
ghost use Rattle.wasi_calls_rules.specs.Checks.{open_descriptor, names_directory};
ghost use Rattle.wasi_calls_rules.specs.Checks.{no_directory, a_file, a_directory};
ghost use Rattle.std.specs.List.{list_any};
ghost use Rattle.wasi_abi.specs.declared.flags.TheConstants.{ALL_DESCRIPTOR_FLAGS};
ghost use Rattle.wasi_abi.specs.rules.Numbers.{descriptor_flags_number};
ghost use Rattle.wasi_calls_rules.specs.Small.{names, swept, with_descriptor};
ghost use Rattle.wasi_calls.specs.Steps.{GivesValue};
ghost use Rattle.wasi_calls.specs.Views.{target_of};

use crate::descriptor::{Descriptor, Names};
use crate::host::WasiState;
use file_tree::Tree;
use wasi_abi::{DescriptorFlags, Errno};

impl WasiState {
    /// What is open under this number, or `Badf`.
    pub(crate) fn descriptor(&self, fd: u32) -> Result<&Descriptor, Errno>
        ensures gives { GivesValue (λ d. d.now) result (open_descriptor self.now.host fd) }
        ensures is { IfOk result (λ d. IsDescriptor self.now.host.files d.now) }
    {
        let descriptor = self.find_descriptor(fd)?;
        Ok(descriptor)
    }

    fn find_descriptor(&self, fd: u32) -> Result<&Descriptor, Errno>
        ensures gives { GivesValue (λ d. d.now) result (open_descriptor self.now.host fd) }
        ensures shape { IsWasiState self.now.host }
    {
        match self.descriptors.get(fd as usize) {
            Some(Some(descriptor)) => Ok(descriptor),
            _ => Err(Errno::Badf),
        }
    }

    /// Whether a directory is named.
    pub(crate) fn is_directory(&self, names: Names) -> bool
        ensures { result ≡ names_directory self.now.host (target_of names) }
    {
        match names {
            Names::Stream(_) => false,
            Names::Node(node) => self.tree.is_directory(node),
        }
    }

    /// `Isdir` where a directory is named.
    pub(crate) fn no_directory(&self, descriptor: &Descriptor) -> Result<(), Errno>
        ensures gives { GivesValue (λ x. x) result (no_directory self.now.host descriptor.now) }
    {
        if self.is_directory(descriptor.names()) {
            return Err(Errno::Isdir);
        }
        Ok(())
    }

    /// The file that is named. `Spipe` where a stream is, and `Isdir` where a directory is.
    pub(crate) fn a_file(&self, descriptor: &Descriptor) -> Result<u64, Errno>
        ensures gives { GivesValue (λ _. tt) result (a_file self.now.host descriptor.now) }
        ensures node { IfOk result (λ k. descriptor.now.target ≡ Node k) }
        ensures there { IsDescriptor self.now.host.files descriptor.now
            → IfOk result (λ k. IsThere self.now.host.files (Node k)) }
        ensures file { IfOk result (λ k. is_directory self.now.host.files k ≡ false) }
    {
        match descriptor.names() {
            Names::Stream(_) => Err(Errno::Spipe),
            Names::Node(node) => {
                self.no_directory(descriptor)?;
                Ok(node)
            }
        }
    }

    /// The directory that is named, or `Notdir`.
    pub(crate) fn a_directory(&self, descriptor: &Descriptor) -> Result<u64, Errno>
        ensures gives { GivesValue (λ _. tt) result (a_directory self.now.host descriptor.now) }
        ensures node { IfOk result (λ k. descriptor.now.target ≡ Node k) }
        ensures directory { IfOk result (λ _.
            names_directory self.now.host descriptor.now.target ≡ true) }
    {
        match descriptor.names() {
            Names::Node(node) if self.tree.is_directory(node) => Ok(node),
            _ => Err(Errno::Notdir),
        }
    }

    /// The descriptor that is open under this number.
    fn known_descriptor(&self, fd: u32) -> &Descriptor
        requires { (d : Opened) × (open_descriptor self.now.host fd ≡ Ok d) }
        ensures { slice_get self.now.host.descriptors fd ≡ Some (Some result.now) }
    {
        match self.descriptors.get(fd as usize) {
            Some(Some(descriptor)) => descriptor,
            _ => unreachable!(),
        }
    }

    /// Moves an open file's next read or write to another place.
    pub(crate) fn move_to(&mut self, fd: u32, offset: u64)
        requires open { (d : Opened) × (open_descriptor self.old.host fd ≡ Ok d) }
        requires small { offset < 2 ^ 63 }
        ensures moved { (d : Opened) → open_descriptor self.old.host fd ≡ Ok d
            → self.new.host ≡ with_descriptor fd (record d { offset = offset }) self.old.host }
        ensures released { self.new.released ≡ self.old.released }
    {
        let moved = self.known_descriptor(fd).at_offset(offset);
        self.descriptors[fd as usize] = Some(moved);
    }

    /// Gives an open descriptor other flags.
    pub(crate) fn set_flags(&mut self, fd: u32, flags: DescriptorFlags)
        requires open { (d : Opened) × (open_descriptor self.old.host fd ≡ Ok d) }
        requires few { descriptor_flags_number flags ≤ ALL_DESCRIPTOR_FLAGS }
        ensures set { (d : Opened) → open_descriptor self.old.host fd ≡ Ok d
            → self.new.host ≡ with_descriptor fd
            (record d { flags = descriptor_flags_number flags }) self.old.host }
        ensures released { self.new.released ≡ self.old.released }
    {
        let changed = self.known_descriptor(fd).with_flags(flags);
        self.descriptors[fd as usize] = Some(changed);
    }

    /// Closes an open descriptor. A removed node that nothing else names is forgotten.
    pub(crate) fn close(&mut self, fd: u32)
        requires open { (d : Opened) × (open_descriptor self.old.host fd ≡ Ok d) }
        requires not_root { fd ≢ 3 }
        ensures closed { (d : Opened) → open_descriptor self.old.host fd ≡ Ok d
            → self.new.host ≡ record self.old.host {
              descriptors = slice_set self.old.host.descriptors fd None;
              files = swept d.target (slice_set self.old.host.descriptors fd None)
                  self.old.host.files;
            } }
        ensures released { self.new.released ≡ self.old.released }
    {
        let names = self.known_descriptor(fd).names();
        self.descriptors[fd as usize] = None;
        sweep(&mut self.tree, &self.descriptors, names);
    }
}

/// Forgets a node that has lost its path, once no descriptor names it.
pub(crate) fn sweep(tree: &mut Tree, descriptors: &[Option<Descriptor>], names: Names)
    ensures { tree.new ≡ swept (target_of names) descriptors.now tree.old }
{
    if let Names::Node(node) = names
        && !tree.has_path(node)
        && !is_named(descriptors, node)
    {
        tree.forget(node);
    }
}

/// Whether a descriptor names a node.
pub(crate) fn is_named(descriptors: &[Option<Descriptor>], node: u64) -> bool
    ensures { result ≡ list_any (names node) descriptors.now }
{
    for descriptor in descriptors {
        if names_node(descriptor, node) {
            return true;
        }
    }
    false
}

/// Whether it is open, and names a node.
pub(crate) fn names_node(descriptor: &Option<Descriptor>, node: u64) -> bool
    ensures { result ≡ names node descriptor.now }
{
    match descriptor {
        Some(descriptor) => descriptor.names() == Names::Node(node),
        None => false,
    }
}
