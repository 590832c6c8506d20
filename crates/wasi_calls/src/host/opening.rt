//! Nodes of a host that are opened: free numbers, and what is put under them.

ghost use Rattle.std.specs.Prelude.{◌≡◌, ◌<◌, length, [], Ok, IfSome, OnOk, OnErr, false};
ghost use Rattle.file_tree.specs.rules.Files.{is_directory, with_file_bytes};
ghost use Rattle.wasi_calls_rules.specs.WasiStates.{Node, IsThere, IsDescriptor, IsWasiState};
ghost use Rattle.wasi_calls_rules.specs.Checks.{node_named};
ghost use Rattle.wasi_calls_rules.specs.Entries.{free_from, free_number};
ghost use Rattle.wasi_calls_rules.specs.Paths.{node_at};
ghost use Rattle.wasi_calls_rules.specs.Small.{with_descriptor};
ghost use Rattle.wasi_calls.specs.Openings.{is_free};
ghost use Rattle.wasi_calls.specs.Places.{IsWellPlaced, walk_end_of};
ghost use Rattle.wasi_calls.specs.Steps.{GivesValue};

use crate::descriptor::Descriptor;
use crate::host::WasiState;
use crate::paths::PathEnd;
use std::alloc::AllocError;
use wasi_abi::Errno;

/// Numbers below are those of the streams, and are not given again.
const FIRST_FREE: usize = 3;

impl WasiState {
    /// The node at a place, which is there.
    pub(crate) fn node_there(&self, place: PathEnd<'_>) -> Option<u64>
        requires well { IsWellPlaced self.now.host.files (walk_end_of place) }
        ensures node { result ≡ node_at self.now.host.files (walk_end_of place.entry) }
        ensures there { IfSome result (λ k. IsThere self.now.host.files (Node k)) }
        ensures shape { IsWasiState self.now.host }
    {
        // The tree is read, so that what it is is known.
        let _nodes = self.tree.len();
        self.node_at(place)
    }

    /// The lowest free number, or `Mfile`.
    pub(crate) fn free_number(&self) -> Result<u32, Errno>
        ensures { GivesValue (λ n. n) result (free_number self.now.host) }
    {
        match first_free(&self.descriptors) {
            Some(number) => Ok(number as u32),
            None => Err(Errno::Mfile),
        }
    }

    /// Opens a descriptor of a node under a free number.
    pub(crate) fn open(&mut self, number: u32, descriptor: Descriptor)
        requires free { free_number self.old.host ≡ Ok number }
        requires node { descriptor.target ≡ Node (node_named descriptor.target) }
        requires is { IsDescriptor self.old.host.files descriptor }
        ensures { self.new ≡ record self.old {
          host = with_descriptor number descriptor self.old.host;
        } }
    {
        self.descriptors[number as usize] = Some(descriptor);
    }

    /// Cuts a file to nothing. It fails only when out of memory, and changes nothing then.
    pub(crate) fn truncate(&mut self, node: u64) -> Result<(), AllocError>
        requires there { IsThere self.old.host.files (Node node) }
        requires file { is_directory self.old.host.files node ≡ false }
        ensures cut { OnOk result (self.new ≡ record self.old {
          host = record self.old.host {
            files = with_file_bytes node [] self.old.host.files;
          };
        }) }
        ensures there { OnOk result (IsThere self.new.host.files (Node node)) }
        ensures unchanged { OnErr result (self.new ≡ self.old) }
    {
        self.tree.resize(node, 0)?;
        Ok(())
    }
}

/// The place of the first that is free, after those of the streams.
fn first_free(descriptors: &[Option<Descriptor>]) -> Option<usize>
    ensures first { result ≡ free_from 0 descriptors.now }
    ensures within { IfSome result (λ n. n < length descriptors.now) }
{
    for place in 0..descriptors.len() {
        if is_free(place, &descriptors[place]) {
            return Some(place);
        }
    }
    None
}

/// Whether nothing is open at a place that may be given.
fn is_free(place: usize, descriptor: &Option<Descriptor>) -> bool
    ensures { result ≡ is_free place descriptor.now }
{
    match descriptor {
        Some(_) => false,
        None => place >= FIRST_FREE,
    }
}
