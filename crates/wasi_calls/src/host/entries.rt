//! Entries of a host's directories.

ghost use Rattle.std.specs.Prelude.{◌≡◌, ◌+◌, ◌<◌, ◌≤◌, ◌^◌, ◌++◌, ℕ, Some, length};
ghost use Rattle.wasi_abi.specs.rules.Layouts.{dirent_layout, dirent_bytes};
ghost use Rattle.file_tree.specs.rules.Files.{IsFiles};
ghost use Rattle.file_tree.specs.rules.Listings.{number_at_place, HasNameAtPlace};
ghost use Rattle.wasi_calls_rules.specs.Entries.{node_type};

use crate::descriptor::Names;
use crate::host::WasiState;
use wasi_abi::Dirent;

impl WasiState {
    /// The node at a place of a directory, by the order of names.
    pub(crate) fn entry(&self, directory: u64, place: u64) -> Option<u64>
        ensures entry { result ≡ number_at_place self.now.host.files directory place }
        ensures shape { IsFiles self.now.host.files }
    {
        self.tree.entry(directory, place as usize)
    }

    /// The node right after the entry of this name.
    pub(crate) fn entry_after(&self, directory: u64, name: &[u8]) -> Option<u64>
        ensures { (i : ℕ) → HasNameAtPlace self.now.host.files directory i name.now
            → result ≡ number_at_place self.now.host.files directory (i + 1) }
    {
        self.tree.entry_after(directory, name)
    }

    /// The name of a node in its directory.
    pub(crate) fn name(&self, node: u64) -> &[u8]
        ensures { (d i : ℕ) → number_at_place self.now.host.files d i ≡ Some node
            → HasNameAtPlace self.now.host.files d i result.now }
    {
        self.tree.name(node)
    }

    /// What is before the name of an entry. The next cookie is the place after it.
    pub(crate) fn dirent(&self, place: u64, node: u64, name: &[u8]) -> Dirent
        requires next { place + 1 < 2 ^ 64 }
        requires short { length name.now < 2 ^ 32 }
        ensures { dirent_layout result ++ name.now
            ≡ dirent_bytes (place + 1) node (node_type self.now.host.files node) name.now }
    {
        Dirent {
            next: place + 1,
            node,
            name_length: name.len() as u32,
            file_type: self.file_type(Names::Node(node)).number(),
        }
    }
}
