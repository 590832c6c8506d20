//! What a host leaves to another one, and a host that goes on from that.

ghost use Rattle.std.specs.Prelude.{◌≡◌, ◌≤◌};
ghost use Rattle.file_tree.specs.rules.Files.{used, only_named};
ghost use Rattle.wasi_calls_rules.specs.WasiStates.{first_descriptors};

use crate::host::WasiState;
use file_tree::Tree;
use guest_memory::laws::has_64_bits;

impl WasiState {
    ghost use Rattle.wasi_calls.specs.rules.Held.{held_succeeding};

    /// Its files and directories. A node that was removed is gone, and its number isn't used
    /// again. All else is let go.
    pub fn into_tree(self) -> Tree
        ensures { result ≡ only_named self.host.files }
    {
        let WasiState { mut tree, .. } = self;
        tree.forget_removed();
        tree
    }

    /// It goes on from the files and the last monotonic time that another host has left, after as
    /// many lines as that one has emitted. It has the descriptors of a first host still, and there
    /// is room for the files, each of which has a path. What waits or isn't finished stays.
    pub fn go_on_from(&mut self, tree: Tree, last_monotonic: u64, released: u64)
        requires opened { self.old.host.descriptors ≡ first_descriptors }
        requires named { only_named tree ≡ tree }
        requires room { used tree ≤ self.old.host.room }
        ensures { self.new ≡ held_succeeding tree last_monotonic released self.old }
    {
        has_64_bits(last_monotonic);
        let _nodes = tree.len();
        self.tree = tree;
        self.last_monotonic = last_monotonic;
        self.streams.count_from(released);
    }
}
